//! What is next after a goal that may have left something to settle.
ghost use Rattle.std.specs.Prelude.{◌≡◌, true, IfOk};
ghost use Rattle.pi_constraints.specs.State.{State};
ghost use Rattle.pi_engine_settle.specs.Due.{SinceIs};
ghost use Rattle.pi_engine_settle.specs.Settles.{LeftBy};
ghost use Rattle.pi_engine_stands.specs.Settling.{NextAfter};

use pi_constraints::StateStore;
use pi_engine_arenas::{Now, Point, Settling};
use pi_engine_settle::{Since, due_since};
use std::alloc::{AllocError, Global};

/// What is next after a goal that began there, where it has an answer: the point, at once or after what is due was run. Without an
/// answer the newest entry is next.
#[inline(always)]
pub fn next_after<S: StateStore>(
    alloc: Global,
    store: &S,
    since: &Option<Since<S::Mark>>,
    one: bool,
    point: Point,
) -> Result<Now, AllocError>
    ensures { IfOk result (λ now. (before : State) → SinceIs (S.seen store.now) before since.now →
        (one ≡ true → LeftBy before (S.seen store.now).now.state) → NextAfter one before (S.seen store.now).now.state point now) }
{
    if !one {
        return Ok(Now::Failing);
    }
    let due = due_since(alloc, store, since)?;
    if due.len() == 0 {
        return Ok(Now::Going(point));
    }
    let settling = Box::new(alloc, Settling { due, point })?;
    Ok(Now::Settling(settling))
}
