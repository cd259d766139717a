//! The beginning of a run.
ghost use Rattle.std.specs.Prelude.{◌≡◌, ◌++◌, List, IfOk};
ghost use Rattle.pi_constraints.specs.State.{empty_state};
ghost use Rattle.pi_constraints.specs.Store.{Keeps};
ghost use Rattle.pi_core.specs.CoreTree.{program_tree};
ghost use Rattle.pi_meaning.specs.CoreMeaning.Sound.{IsSoundQuery};
ghost use Rattle.pi_meaning.specs.CoreMeaning.Defined.{QueryCallsDefined, NamesAreFree};
ghost use Rattle.pi_core.specs.declared.core_program.NameSlot.{NameSlot};
ghost use Rattle.pi_engine_arenas.specs.Arenas.{view_of};
ghost use Rattle.pi_engine.specs.Begins.{asked, Begins, begun};
ghost use Rattle.pi_engine_arenas.specs.Arenas.{no_arenas};
ghost use Rattle.pi_engine.specs.Turns.{IsRunning};

use pi_constraints::StateStore;
use pi_core::{CoreGoal, CorePreds, CoreProgram};
use pi_engine_arenas::Run;
use pi_engine_code::{Code, build_code};
use pi_engine_steps::one_goal;
use std::alloc::{AllocError, Global};

/// Begins the run of a query: its tables are built, it has its slots, and its goal comes next.
pub fn begin<'p, S: StateStore>(
    alloc: Global,
    core: &'p CoreProgram,
    goal: &CoreGoal,
    helpers: CorePreds,
    slots: u32,
    run: &mut Run<S>,
) -> Result<Code<'p>, AllocError>
    ensures keeps { Keeps (S.seen run.old.store) (S.seen run.new.store) }
    ensures running { IfOk result (λ _. IsRunning run.new.now) }
    ensures begins { IfOk result (λ code. (names : List NameSlot) → (S.seen run.old.store).now.state ≡ empty_state →
        view_of run.old.arenas ≡ no_arenas → IsSoundQuery (program_tree core.now) (asked goal.now helpers names slots) →
        QueryCallsDefined (program_tree core.now) (asked goal.now helpers names slots) →
        NamesAreFree (program_tree core.now ++ (asked goal.now helpers names slots).helpers) →
        Begins code (begun (S.seen run.new.store) S.order (view_of run.new.arenas) run.new.now) (program_tree core.now)
        (asked goal.now helpers names slots)) }
{
    let (code, place) = build_code(alloc, core, helpers, goal, slots, &mut run.store)?;
    run.arenas.blocks.push_empty(slots)?;
    run.now = one_goal(place, 0, 0);
    Ok(code)
}
