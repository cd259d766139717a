//! The names that a goal calls, and those that its program defines.
ghost use Rattle.std.specs.Prelude.{◌≡◌, true, IfOk, option_map};
ghost use Rattle.pi_syntax.specs.ExpTree.{exp_tree};
ghost use Rattle.pi_syntax.specs.ProgramTree.{source_tree, part_tree};
ghost use Rattle.pi_prog_clauses.specs.Called.{named_by};
ghost use Rattle.pi_prog_clauses.specs.Calls.{calls_among, first_unknown};
ghost use Rattle.pi_prog_clauses.specs.Defined.{IsSetOf};
ghost use Rattle.pi_prog_clauses.specs.GoalNames.{defined_by_part};
ghost use Rattle.pi_prog_clauses.specs.GoalVerdict.{defined_by_program};
ghost use Rattle.pi_prog_clauses.specs.Places.{goal, placed};

use crate::judging::first_faults::unknown_among;
use crate::names::calls::{Called, Calls};
use crate::names::definition;
use crate::names::definitions::Definitions;
use pi_syntax::{Exp, Part, Program};
use std::alloc::{AllocError, Global};

/// The first name that a goal calls and that is neither built in nor defined by the program.
pub fn first_unknown_of_goal<'a>(
    alloc: Global,
    query: &'a Exp,
    program: &'a Program,
) -> Result<Option<Called<'a>>, AllocError>
    ensures { IfOk result (λ unknown. option_map named_by unknown ≡
        first_unknown (defined_by_program (source_tree program.now)) (calls_among (placed (goal true) (exp_tree query.now)))) }
{
    let all = defined_by_program(alloc, program)?;
    let calls = Calls::of_goal(alloc, query)?;
    unknown_among(calls, &all)
}

/// All that a program defines.
fn defined_by_program<'a>(
    alloc: Global,
    program: &'a Program,
) -> Result<Definitions<'a>, AllocError>
    ensures { IfOk result (λ all. IsSetOf all (defined_by_program (source_tree program.now))) }
{
    let mut all = Definitions::new(alloc);
    let parts = program.parts.as_slice();
    for i in 0..parts.len() {
        let Some(name) = part_name(&parts[i]) else {
            continue;
        };
        all.insert(name)?;
    }
    Ok(all)
}

/// What a part defines.
fn part_name(part: &Part) -> Option<Called<'_>>
    ensures { option_map named_by result ≡ defined_by_part (part_tree part.now) }
{
    match &part.clause {
        Some(clause) => definition(clause),
        None => None,
    }
}
