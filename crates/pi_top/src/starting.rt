//! How a query begins: it is asked over a store, and listed.
ghost use Rattle.std.specs.Prelude.{◌≡◌, ◌<◌, ◌∷◌, [], ◌++◌, IfOk, IfErr, OnOk, OnErr};
ghost use Rattle.pi_core.specs.CoreTree.{program_tree, query_tree};
ghost use Rattle.pi_constraints.specs.State.{empty_state};
ghost use Rattle.pi_meaning.specs.Machine.Built.{IsRunnable};
ghost use Rattle.pi_meaning.specs.declared.happening.Mode.{Mode};
ghost use Rattle.pi_engine.specs.Seen.{machine_view, mode_of};
ghost use Rattle.pi_top.specs.declared.query.Stop.TheVariants.{Memory};
ghost use Rattle.pi_top.specs.PresentCode.{IsInBudget};
ghost use Rattle.pi_top.specs.Running.{IsAtStart};
ghost use Rattle.pi_top.specs.Runs.{no_work, run_of as run_of_what};
ghost use Rattle.pi_top.specs.Took.{bounds_of, nothing_taken};

use crate::manner::Manner;
use crate::query::{Stop, run_of};
use crate::runs::Queries;
use pi_constraints::StateStore;
use pi_core::{CoreProgram, CoreQuery, Work};
use pi_engine::{Budget, Machine, Mode};
use std::alloc::Global;

/// A query that was asked, and nothing of it was run: the machine that is to run it, and what it may take.
#[derive(Drop)]
pub struct Begun<'p, S: StateStore> {
    pub machine: Machine<'p, S>,
    pub budget: Budget,
}

/// Asks a query over a store in some manner, and lists it. Errors: no memory.
pub fn begin<'p, S: StateStore>(
    alloc: Global,
    core: &'p CoreProgram,
    query: CoreQuery,
    store: S,
    manner: &Manner,
    queries: &mut Queries,
) -> Result<Begun<'p, S>, Stop>
    ensures starts { IfOk result (λ begun. (S.seen store).now.state ≡ empty_state →
        IsRunnable (program_tree core.now) (query_tree query) → 0 < manner.now.answers →
        IsAtStart (machine_view S.seen S.order begun.machine) begun.budget manner.now.answers (program_tree core.now)
        (query_tree query)) }
    ensures counts_ticks { IfOk result (λ begun. mode_of (machine_view S.seen S.order begun.machine) ≡ Mode.Top) }
    ensures bounded { IfOk result (λ begun. IsInBudget (bounds_of manner.now) begun.budget) }
    ensures workless { IfOk result (λ begun. begun.budget.work ≡ no_work) }
    ensures listed { OnOk result (queries.new ≡ queries.old ++ run_of_what nothing_taken ∷ []) }
    ensures unlisted { OnErr result (queries.new ≡ queries.old) }
    ensures memory { IfErr result (λ stop. stop ≡ Memory) }
{
    let Ok(machine) = Machine::new(alloc, core, query, store, Mode::Top) else {
        return Err(Stop::Memory);
    };
    let budget = Budget {
        ticks: 0,
        steps: manner.steps,
        work: Work::NONE,
        limit: manner.work,
    };
    let Ok(()) = queries.push(run_of(&budget)) else {
        return Err(Stop::Memory);
    };
    Ok(Begun { machine, budget })
}
