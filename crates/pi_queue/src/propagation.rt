//! Propagation: constraints that are due run until none is due, one fails, or the budget is spent.
ghost use Rattle.std.specs.Prelude.{◌≡◌, ◌+◌, ◌<◌, ◌≤◌, ◌↔◌, ◌^◌, IfOk, IsTrue, MatchBool, length, sum_by};
ghost use Rattle.pi_constraints.specs.State.{IsState};
ghost use Rattle.pi_constraints.specs.Store.{Keeps};
ghost use Rattle.pi_settling.specs.Stable.{IsStable, IsEmptied};
ghost use Rattle.pi_settling.specs.SettlingLaws.{MaySettle};
ghost use Rattle.pi_settling.specs.Load.{count_lost};
ghost use Rattle.pi_settling.specs.Runs.{MayPropagate, work_of};
ghost use Rattle.pi_queue.specs.Ends.{numbers_below, Ends, IsUnderWay, KeepsWithin, worked};

use crate::due::Due;
use crate::turn::turn;
use crate::waking::add_all;
use pi_constraints::{Places, StoredDomains};
use pi_core::Work;
use pi_settling::PropStop;
use std::alloc::Global;

/// Runs these constraints and those that become due by it, the one that waits longest first, until none is due (true), one leaves
/// an item nothing (false), or the budget is spent. A constraint waits once at most, and runs once for each time that it becomes due.
/// What is said holds where the numbers are different and are those of posted constraints, no other constraint would change
/// anything, and each item comes to a variable with a domain or to an integer that a domain can have.
pub fn propagate_from<S: StoredDomains>(
    alloc: Global,
    s: &mut S,
    due: &Places,
    work: &mut Work,
    limit: u64,
) -> Result<bool, PropStop>
    ensures keeps { Keeps (S.seen s.old) (S.seen s.new) }
    ensures ends { MayPropagate (S.seen s.old).now.state due.now →
        Ends (S.seen s.old).now.state due.now (worked limit work.old work.new) (S.seen s.new).now.state result }
    ensures domains { IfOk result (λ some. MayPropagate (S.seen s.old).now.state due.now →
        MatchBool some (IsStable (S.seen s.old).now.state (S.seen s.new).now.state) (IsEmptied (S.seen s.old).now.state)) }
    ensures bounded { MayPropagate (S.seen s.old).now.state due.now →
        work.new.runs ≤ work.old.runs + (length due.now + sum_by (count_lost (S.seen s.old).now.state (S.seen s.new).now.state)
        (S.seen s.old).now.state.constraints) }
    ensures within { KeepsWithin limit work.old work.new }
{
    let mut waiting = Due::new(alloc);
    add_all(&mut waiting, due.as_slice())?;
    run_all(alloc, s, &mut waiting, work, limit)
}

/// The same of all constraints that were posted.
pub fn propagate<S: StoredDomains>(
    alloc: Global,
    s: &mut S,
    work: &mut Work,
    limit: u64,
) -> Result<bool, PropStop>
    ensures keeps { Keeps (S.seen s.old) (S.seen s.new) }
    ensures ends { IsState (S.seen s.old).now.state → MaySettle (S.seen s.old).now.state →
        Ends (S.seen s.old).now.state (numbers_below (length (S.seen s.old).now.state.constraints))
        (worked limit work.old work.new) (S.seen s.new).now.state result }
    ensures domains { IfOk result (λ some. IsState (S.seen s.old).now.state → MaySettle (S.seen s.old).now.state →
        MatchBool some (IsStable (S.seen s.old).now.state (S.seen s.new).now.state) (IsEmptied (S.seen s.old).now.state)) }
    ensures bounded { IsState (S.seen s.old).now.state → MaySettle (S.seen s.old).now.state →
        work.new.runs ≤ work.old.runs + (length (S.seen s.old).now.state.constraints + sum_by
        (count_lost (S.seen s.old).now.state (S.seen s.new).now.state) (S.seen s.old).now.state.constraints) }
    ensures within { KeepsWithin limit work.old work.new }
{
    let mut waiting = Due::new(alloc);
    for i in 0..s.constraints() {
        waiting.add(i)?;
    }
    run_all(alloc, s, &mut waiting, work, limit)
}

/// Runs those that wait, and those that become due by it.
fn run_all<S: StoredDomains>(
    alloc: Global,
    s: &mut S,
    waiting: &mut Due,
    work: &mut Work,
    limit: u64,
) -> Result<bool, PropStop>
    ensures keeps { Keeps (S.seen s.old) (S.seen s.new) }
    ensures ends { MayPropagate (S.seen s.old).now.state waiting.old →
        Ends (S.seen s.old).now.state waiting.old (worked limit work.old work.new) (S.seen s.new).now.state result }
    ensures under_way { MayPropagate (S.seen s.old).now.state waiting.old →
        IsUnderWay (S.seen s.old).now.state waiting.old work.old work.new (S.seen s.new).now.state }
    ensures within { KeepsWithin limit work.old work.new }
{
    while let Some(i) = waiting.take() {
        if is_spent(work, limit) {
            return Err(PropStop::WorkSpent);
        }
        work.runs += 1;
        let some = turn(alloc, s, i, waiting)?;
        if !some {
            return Ok(false);
        }
    }
    Ok(true)
}

/// Whether the work of a query has reached its limit.
fn is_spent(work: &Work, limit: u64) -> bool
    ensures { IsTrue result ↔ (limit ≤ work_of work.now) }
{
    let Work {
        goals,
        runs,
        expansions,
    } = *work;
    u128::from(goals) + u128::from(runs) + u128::from(expansions) >= u128::from(limit)
}
