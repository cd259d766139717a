//! The verdict on a program's parts.
ghost use Rattle.std.specs.Prelude.{◌≡◌, OnOk, IfErr};
ghost use Rattle.pi_prog_clauses.specs.Called.{named_by};
ghost use Rattle.pi_prog_clauses.specs.Faults.{IsTold};
ghost use Rattle.pi_prog_clauses.specs.Judge.{faulty_shown, unknown_shown};
ghost use Rattle.pi_prog_clauses.specs.Seen.{all_seen};
ghost use Rattle.pi_prog_clauses.specs.Verdict.{verdict, parts_of, a_program, part_is_faulty, is_scattered, is_unknown};

pub(crate) mod first_faults;
mod part_fault;

use crate::judging::first_faults::{
    Faulty, UnknownCall, definitions, first_apart, first_faulty, first_unknown,
};
use crate::judging::part_fault::PartFault;
use crate::names::calls::Called;
use crate::parts::PartReading;
use crate::prog_fault::ProgFault;
use pi_terms::Text;
use std::alloc::Global;

/// The first fault of these parts.
pub fn judge_parts(alloc: Global, parts: &[PartReading]) -> Result<(), ProgFault>
    ensures ok { OnOk result (verdict (all_seen parts.now) ≡ a_program (parts_of (all_seen parts.now))) }
    ensures fault { IfErr result (IsTold (verdict (all_seen parts.now))) }
{
    let all = definitions(alloc, parts)?;
    let faulty = first_faulty(alloc, parts, &all)?;
    if let Some(faulty) = faulty {
        return Err(faulty_part(faulty));
    }
    let apart = first_apart(alloc, parts)?;
    if let Some(name) = apart {
        return Err(scattered(alloc, name));
    }
    let unknown = first_unknown(alloc, parts, &all)?;
    if let Some(call) = unknown {
        return Err(unknown_name(alloc, call));
    }
    Ok(())
}

fn faulty_part(faulty: Faulty) -> ProgFault
    ensures { IsTold (part_is_faulty (faulty_shown faulty)) result }
{
    let number = faulty.number;
    match faulty.fault {
        PartFault::TooDeep => ProgFault::TooDeep { number },
        PartFault::BadDeclaration => ProgFault::BadDeclaration { number },
        PartFault::BadClause => ProgFault::BadClause { number },
        PartFault::TooManyVariables => ProgFault::TooManyVariables { number },
    }
}

fn scattered(alloc: Global, called: Called<'_>) -> ProgFault
    ensures { IsTold (is_scattered (named_by called.entry)) result }
{
    let Ok(arity) = u32::try_from(called.arity) else {
        return ProgFault::Memory;
    };
    let Ok(name) = Text::new(alloc, called.name) else {
        return ProgFault::Memory;
    };
    ProgFault::Scattered { name, arity }
}

pub fn unknown_name(alloc: Global, call: UnknownCall<'_>) -> ProgFault
    ensures { IsTold (is_unknown (unknown_shown call.entry)) result }
{
    let Ok(arity) = u32::try_from(call.called.arity) else {
        return ProgFault::Memory;
    };
    let Ok(name) = Text::new(alloc, call.called.name) else {
        return ProgFault::Memory;
    };
    ProgFault::UnknownName {
        name,
        arity,
        number: call.number,
    }
}
