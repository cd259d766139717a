//! Settling what a goal left.
ghost use Rattle.std.specs.Prelude.{IfOk};
ghost use Rattle.pi_constraints.specs.State.{State};
ghost use Rattle.pi_constraints.specs.Store.{Keeps};
ghost use Rattle.pi_queue.specs.Ends.{KeepsWithin, worked};
ghost use Rattle.pi_meaning.specs.Shared.Settle.{settlement};
ghost use Rattle.pi_engine_settle.specs.Due.{SinceIs};
ghost use Rattle.pi_engine_settle.specs.Settles.{LeftBy, SettlesAs};

use crate::propagating::{Settled, settle};
use crate::since::{Since, due_since};
use pi_constraints::StoredDomains;
use pi_core::Work;
use std::alloc::{AllocError, Global};

/// Settles what a goal that began there has left: runs the constraints that are due after it, and those that become due by it,
/// within a limit of work. While no constraint is posted this costs one comparison. (Own.)
///
/// # Errors
///
/// Where memory is wanted; a part of a run may stand then, as after `Lost`.
pub fn settle_since<S: StoredDomains>(
    alloc: Global,
    store: &mut S,
    since: &Option<Since<S::Mark>>,
    work: &mut Work,
    limit: u64,
) -> Result<Settled, AllocError>
    ensures keeps { Keeps (S.seen store.old) (S.seen store.new) }
    ensures within { KeepsWithin limit work.old work.new }
    ensures settles { IfOk result (λ settled. (before : State) → SinceIs (S.seen store.old) before since.now →
        LeftBy before (S.seen store.old).now.state →
        SettlesAs (settlement before (S.seen store.old).now.state) (worked limit work.old work.new) (S.seen store.new).now.state settled) }
{
    let due = due_since(alloc, store, since)?;
    if due.len() == 0 {
        return Ok(Settled::Left);
    }
    settle(alloc, store, &due, work, limit)
}
