//! The faults that a part has among the others.
ghost use Rattle.std.specs.Prelude.{◌≡◌, ◌++◌, ◌∷◌, [], List, OnOk, IfOk, Some, option_map, not};
ghost use Rattle.std.specs.List.{list_any};
ghost use Rattle.pi_syntax.specs.declared.program.Mode.{Mode};
ghost use Rattle.pi_syntax.specs.ProgramTree.{written_clause};
ghost use Rattle.pi_prog_clauses.specs.Calls.{Named};
ghost use Rattle.pi_prog_clauses.specs.Defined.{IsSetOf};
ghost use Rattle.pi_prog_clauses.specs.Seen.{seen, seen_clause};
ghost use Rattle.pi_prog_clauses.specs.Verdict.{JudgedPart, part_fault, clause_fault, declares_badly, names_badly, is_indexed, is_kind_of_other, all_defined, is_length_of};
ghost use Rattle.pi_prog_clauses.specs.Items.{is_fact};
ghost use Rattle.pi_prog_clauses.specs.Before.{fault_shown, IsBefore};

use crate::names::calls::Called;
use crate::names::definition;
use crate::names::definitions::Definitions;
use crate::parts::{PartReading, WrittenPart};
use pi_syntax::{Clause, Modes, kind_of};
use std::alloc::{AllocError, Global};

/// Why a part is refused.
#[derive(Clone, Copy)]
pub(crate) enum PartFault {
    TooDeep,
    BadDeclaration,
    BadClause,
    TooManyVariables,
}

/// What the parts before one define, and what stands behind an `index` in them.
#[derive(Drop)]
pub(crate) struct Before<'a> {
    defined: Definitions<'a>,
    indexed: Definitions<'a>,
}

impl<'a> Before<'a> {
    /// Before the first part.
    pub(crate) fn new(alloc: Global) -> Before<'a>
        ensures { IsBefore result [] }
    {
        Before {
            defined: Definitions::new(alloc),
            indexed: Definitions::new(alloc),
        }
    }

    /// Behind a part more.
    pub(crate) fn add(&mut self, part: &'a PartReading) -> Result<(), AllocError>
        ensures { OnOk result ((before : List JudgedPart) → IsBefore self.old before → IsBefore self.new (before ++ seen part.now ∷ [])) }
    {
        let PartReading::Written(written) = part else {
            return Ok(());
        };
        let Some(name) = definition(&written.clause) else {
            return Ok(());
        };
        self.defined.insert(name)?;
        if written.modes.is_some() {
            self.indexed.insert(Called {
                name: name.name,
                arity: name.arity,
                is_function: false,
            })?;
        }
        Ok(())
    }
}

/// The fault of a part behind these, where all parts define these.
pub(crate) fn part_fault<'a>(
    part: &'a PartReading,
    all: &Definitions<'a>,
    before: &Before<'a>,
) -> Option<PartFault>
    ensures { (defined : List Named) (parts : List JudgedPart) → IsSetOf all.now defined → IsBefore before.now parts →
        option_map fault_shown result ≡ part_fault defined parts (seen part.now) }
{
    match part {
        PartReading::TooDeep => Some(PartFault::TooDeep),
        PartReading::BadDeclaration => Some(PartFault::BadDeclaration),
        PartReading::NoClause => Some(PartFault::BadClause),
        PartReading::Import(_) => None,
        PartReading::Written(written) => clause_fault(written, all, before),
    }
}

fn clause_fault<'a>(
    part: &'a WrittenPart,
    all: &Definitions<'a>,
    before: &Before<'a>,
) -> Option<PartFault>
    ensures { (defined : List Named) (parts : List JudgedPart) → IsSetOf all.now defined → IsBefore before.now parts →
        option_map fault_shown result ≡ clause_fault defined parts (seen_clause part.now) }
{
    if declares_badly(part, &before.defined) {
        return Some(PartFault::BadDeclaration);
    }
    if part.has_bad_form | names_badly(part, all) | is_kind_of_other(part, &before.indexed) {
        return Some(PartFault::BadClause);
    }
    if part.has_too_many_names {
        return Some(PartFault::TooManyVariables);
    }
    None
}

/// Whether a mode list of its `index` has another length than the head, or an earlier part defines its predicate.
fn declares_badly<'a>(part: &'a WrittenPart, defined: &Definitions<'a>) -> bool
    ensures { (names : List Named) → IsSetOf defined.now names → result ≡ declares_badly names (seen_clause part.now) }
{
    let Some(lists) = &part.modes else {
        return false;
    };
    let Some(name) = definition(&part.clause) else {
        return false;
    };
    has_other_length(lists.as_slice(), name.arity) | defined.contains_name(name)
}

/// Whether a mode list has another length.
fn has_other_length(lists: &[Modes], arity: usize) -> bool
    ensures { result ≡ list_any (λ (modes : List Mode). not (is_length_of arity modes)) lists.now }
{
    lists.iter().any(|modes| modes.len() != arity)
}

/// Whether what it defines is built in, or is defined as the other kind too.
fn names_badly<'a>(part: &'a WrittenPart, all: &Definitions<'a>) -> bool
    ensures { (names : List Named) → IsSetOf all.now names → result ≡ names_badly names (seen_clause part.now) }
{
    let Some(name) = definition(&part.clause) else {
        return false;
    };
    kind_of(name.name, name.arity).is_some() | all.contains_other_kind(name)
}

/// Whether it is a fact of a predicate without `index`, or no fact of one with it.
fn is_kind_of_other<'a>(part: &'a WrittenPart, indexed: &Definitions<'a>) -> bool
    ensures { (names : List Named) → IsSetOf indexed.now names →
        result ≡ is_kind_of_other (is_fact (seen_clause part.now).clause) (is_indexed names (seen_clause part.now)) }
{
    is_fact(&part.clause) != is_indexed(part, indexed)
}

fn is_fact(clause: &Clause) -> bool
    ensures { result ≡ is_fact (written_clause clause.now) }
{
    match clause {
        Clause::Rule(_) => false,
        Clause::Function(_) => false,
        Clause::Fact { .. } => true,
    }
}

/// Whether an `index` of its predicate stands in it or an earlier part.
fn is_indexed<'a>(part: &'a WrittenPart, indexed: &Definitions<'a>) -> bool
    ensures { (names : List Named) → IsSetOf indexed.now names → result ≡ is_indexed names (seen_clause part.now) }
{
    if part.modes.is_some() {
        return true;
    }
    match definition(&part.clause) {
        Some(name) => indexed.contains_name(name),
        None => false,
    }
}
