//! The propagation after a goal.
ghost use Rattle.std.specs.Prelude.{IfOk};
ghost use Rattle.pi_constraints.specs.State.{State, IsState};
ghost use Rattle.pi_constraints.specs.Store.{Keeps};
ghost use Rattle.pi_settling.specs.SettlingLaws.{MaySettle};
ghost use Rattle.pi_queue.specs.Ends.{KeepsWithin, worked};
ghost use Rattle.pi_engine_settle.specs.Due.{IsDueFor};
ghost use Rattle.pi_engine_settle.specs.Settles.{ComesTo};

use pi_constraints::{Places, StoredDomains};
use pi_core::Work;
use pi_queue::{PropStop, propagate_from};
use std::alloc::{AllocError, Global};

/// How a propagation ended. (Own.)
#[derive(Clone, Copy)]
pub enum Settled {
    /// The stable domains stand.
    Left,
    /// One of them is empty.
    Lost,
    /// The budget is spent, and a constraint is due.
    Spent,
}

/// Runs the constraints that are due after a goal, and those that become due by it, within a limit of work. (Own.)
///
/// # Errors
///
/// Where memory is wanted; a part of a run may stand then, as after `Lost`.
pub fn settle<S: StoredDomains>(
    alloc: Global,
    store: &mut S,
    due: &Places,
    work: &mut Work,
    limit: u64,
) -> Result<Settled, AllocError>
    ensures keeps { Keeps (S.seen store.old) (S.seen store.new) }
    ensures within { KeepsWithin limit work.old work.new }
    ensures comes { IfOk result (λ settled. (before : State) → IsDueFor before (S.seen store.old).now.state due.now →
        IsState (S.seen store.old).now.state → MaySettle (S.seen store.old).now.state →
        ComesTo before (S.seen store.old).now.state due.now (worked limit work.old work.new) (S.seen store.new).now.state settled) }
{
    match propagate_from(alloc, store, due, work, limit) {
        Ok(some) => Ok(if some { Settled::Left } else { Settled::Lost }),
        Err(PropStop::WorkSpent) => Ok(Settled::Spent),
        Err(PropStop::Memory) => Err(AllocError),
    }
}
