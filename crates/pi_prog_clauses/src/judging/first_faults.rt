//! The first fault of a program's parts.
ghost use Rattle.std.specs.Prelude.{◌≡◌, ◌∷◌, [], List, OnOk, IfOk, IfErr, option_map};
ghost use Rattle.pi_prog_clauses.specs.Called.{named_by, calls_ahead};
ghost use Rattle.pi_prog_clauses.specs.Calls.{Named, first_unknown};
ghost use Rattle.pi_prog_clauses.specs.Defined.{IsSetOf};
ghost use Rattle.pi_prog_clauses.specs.Seen.{all_seen, seen};
ghost use Rattle.pi_prog_clauses.specs.Verdict.{JudgedPart, all_defined, first_faulty, first_unknown_in, verdict, part_calls, parts_of, first_apart, stands_apart};
ghost use Rattle.pi_prog_clauses.specs.Faults.{IsTold};
ghost use Rattle.pi_prog_clauses.specs.Judge.{faulty_shown, unknown_shown, IsEarlier};
ghost use Rattle.pi_prog_clauses.specs.Verdict as spec;

use crate::judging::part_fault::{Before, PartFault, part_fault};
use crate::names::calls::{Called, Calls};
use crate::names::definitions::Definitions;
use crate::names::part_definition;
use crate::parts::PartReading;
use std::alloc::{AllocError, Global};

/// A faulty part, by its number.
#[derive(Clone, Copy)]
pub(crate) struct Faulty {
    pub(crate) number: u64,
    pub(crate) fault: PartFault,
}

/// A call of an unknown name, with the number of its part.
#[derive(Clone, Copy)]
pub struct UnknownCall<'a> {
    pub called: Called<'a>,
    pub number: u64,
}

/// All that the parts define.
pub(crate) fn definitions<'a>(
    alloc: Global,
    parts: &'a [PartReading],
) -> Result<Definitions<'a>, AllocError>
    ensures { IfOk result (λ all. IsSetOf all (all_defined (all_seen parts.now))) }
{
    let mut all = Definitions::new(alloc);
    for i in 0..parts.len() {
        let Some(name) = part_definition(&parts[i]) else {
            continue;
        };
        all.insert(name)?;
    }
    Ok(all)
}

/// The first part with a fault of its own, where all parts define these.
pub(crate) fn first_faulty<'a>(
    alloc: Global,
    parts: &'a [PartReading],
    all: &Definitions<'a>,
) -> Result<Option<Faulty>, AllocError>
    ensures { IfOk result (λ faulty. (defined : List Named) → IsSetOf all.now defined →
        option_map faulty_shown faulty ≡ first_faulty defined [] (all_seen parts.now)) }
{
    let mut before = Before::new(alloc);
    for i in 0..parts.len() {
        let part = &parts[i];
        if let Some(fault) = part_fault(part, all, &before) {
            let number = i + 1;
            return Ok(Some(Faulty {
                number: number as u64,
                fault,
            }));
        }
        before.add(part)?;
    }
    Ok(None)
}

/// The first clause that stands apart from others of its predicate or function.
pub(crate) fn first_apart<'a>(
    alloc: Global,
    parts: &'a [PartReading],
) -> Result<Option<Called<'a>>, AllocError>
    ensures { IfOk result (λ name. option_map named_by name ≡ first_apart [] (all_defined (all_seen parts.now))) }
{
    let mut earlier = Definitions::new(alloc);
    let mut last = None;
    for i in 0..parts.len() {
        let Some(name) = part_definition(&parts[i]) else {
            continue;
        };
        if stands_apart(&earlier, last, name) {
            return Ok(Some(name));
        }
        earlier.insert(name)?;
        last = Some(name);
    }
    Ok(None)
}

/// Whether a clause stands apart behind those that define these, and this last.
fn stands_apart<'a>(earlier: &Definitions<'a>, last: Option<Called<'a>>, name: Called<'a>) -> bool
    ensures { (before : List Named) → IsEarlier earlier.now last.entry before → result ≡ stands_apart before (named_by name.entry) }
{
    match last {
        None => false,
        Some(last) => !same_signature(name, last) & earlier.contains_name(name),
    }
}

fn same_signature(a: Called<'_>, b: Called<'_>) -> bool
    ensures { result ≡ spec.same_signature (named_by a.entry) (named_by b.entry) }
{
    a.name == b.name && a.arity == b.arity
}

/// The first call of a name that is neither built in nor defined.
pub(crate) fn first_unknown<'a>(
    alloc: Global,
    parts: &'a [PartReading],
    all: &Definitions<'a>,
) -> Result<Option<UnknownCall<'a>>, AllocError>
    ensures { IfOk result (λ unknown. (defined : List Named) → IsSetOf all.now defined →
        option_map unknown_shown unknown ≡ first_unknown_in defined 0 (all_seen parts.now)) }
{
    for i in 0..parts.len() {
        let unknown = unknown_of_part(alloc, &parts[i], all)?;
        if let Some(called) = unknown {
            let number = i + 1;
            return Ok(Some(UnknownCall {
                called,
                number: number as u64,
            }));
        }
    }
    Ok(None)
}

fn unknown_of_part<'a>(
    alloc: Global,
    part: &'a PartReading,
    all: &Definitions<'a>,
) -> Result<Option<Called<'a>>, AllocError>
    ensures { IfOk result (λ unknown. (defined : List Named) → IsSetOf all.now defined →
        option_map named_by unknown ≡ first_unknown defined (part_calls (seen part.now))) }
{
    let PartReading::Written(written) = part else {
        return Ok(None);
    };
    let calls = Calls::of_clause(alloc, &written.clause)?;
    unknown_among(calls, all)
}

/// The first of these calls whose name is neither built in nor defined.
pub(crate) fn unknown_among<'a>(
    calls: Calls<'a>,
    all: &Definitions<'a>,
) -> Result<Option<Called<'a>>, AllocError>
    ensures { IfOk result (λ unknown. (defined : List Named) → IsSetOf all.now defined →
        option_map named_by unknown ≡ first_unknown defined (calls_ahead calls.entry)) }
{
    let mut ahead = calls;
    while let Some(called) = ahead.next()? {
        if !all.knows(called) {
            return Ok(Some(called));
        }
    }
    Ok(None)
}
