//! Programs and goals in the core language, where all of them is built.
#![tactic(auto)]

ghost use Rattle.std.specs.Prelude.{◌≡◌, None, IfOk};
ghost use Rattle.pi_core.specs.CoreTree.{program_tree, query_tree};
ghost use Rattle.pi_syntax.specs.ProgramTree.{ProgramTree, source_tree, goal_source};
ghost use Rattle.pi_rewrite_laws.specs.Within.{IsAsked};
ghost use Rattle.pi_rewrite_sound.specs.Built.{unbuilt_part, unbuilt_goal};
ghost use Rattle.pi_rewrite_sound.specs.Within.{IsWithin};
ghost use Rattle.pi_rewrite.specs.Laws.{IsLoweredProgram, IsLowered};
ghost use Rattle.pi_rewrite.specs.Told.{part_told};

mod clauses;
mod goals;
pub mod laws;
mod lower_fault;
mod naming;
mod places;
mod preds;
mod queries;
mod telling;

pub use lower_fault::LowerFault;
use pi_core::{CoreProgram, CoreQuery};
use pi_rewrite_sound::{is_built_goal, unbuilt};
use pi_syntax::{Goal, Program};
use std::alloc::Global;

/// The program in the core language, behind the prelude and with the helpers of its loops: where it is within the forms
/// that are lowered, a core program that keeps its meaning.
///
/// Where it has a part that isn't built, the first such is told, and nothing is lowered. `import` is passed over.
pub fn lower(alloc: Global, program: &Program) -> Result<CoreProgram, LowerFault>
    ensures unbuilt { part_told result ≡ unbuilt_part (source_tree program.now) }
    ensures lowered { IfOk result (λ core. IsWithin (source_tree program.now) →
        IsLoweredProgram (source_tree program.now) (program_tree core)) }
{
    if let Some(number) = unbuilt(program) {
        return Err(LowerFault::NotBuilt {
            number: number as u64,
        });
    }
    let preds = preds::lower_program(alloc, program)?;
    Ok(CoreProgram { preds })
}

/// The goal in the core language, asked of the program that `core` is, with the helpers of its loops. Its names are those
/// of its variables that don't begin with `_` and stand outside of loops.
///
/// A goal that isn't built is told as part 1. Where `core` keeps the meaning of a program of which the goal may be asked,
/// the query keeps that of the goal.
pub fn lower_goal(alloc: Global, goal: &Goal, core: &CoreProgram) -> Result<CoreQuery, LowerFault>
    ensures unbuilt { part_told result ≡ unbuilt_goal (goal_source goal.now) }
    ensures lowered { IfOk result (λ query. (program : ProgramTree) → IsWithin program → unbuilt_part program ≡ None →
        IsAsked program (goal_source goal.now) → IsLoweredProgram program (program_tree core.now) →
        IsLowered program (goal_source goal.now) (program_tree core.now) (query_tree query)) }
{
    if !is_built_goal(&goal.body) {
        return Err(LowerFault::NotBuilt { number: 1 });
    }
    let query = queries::lower_query(alloc, &goal.body, core.preds.as_slice())?;
    Ok(query)
}
