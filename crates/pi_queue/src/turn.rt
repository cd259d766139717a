//! One turn of a propagation: a constraint is run, and those that it wakes are put behind the others.
ghost use Rattle.std.specs.Prelude.{◌≡◌, IfOk, Some, List, ℕ, [], slice_get};
ghost use Rattle.pi_constraints.specs.declared.constraint.Constraint.{Constraint};
ghost use Rattle.pi_constraints.specs.Store.{Keeps};
ghost use Rattle.pi_queue.specs.Leaving.{MayNarrow, LeavesAll, IsNarrower};
ghost use Rattle.pi_queue.specs.Turn.{MayTurn, Turns};

use crate::due::Due;
use crate::filtering::filtered;
use crate::leaving::leave_all;
use crate::reading::roots;
use crate::waking::wake;
use pi_constraints::{Constraint, StoredDomains};
use pi_prop_filters::{is_within_limits, places};
use std::alloc::{AllocError, Global};

/// Runs the constraint with a number, and puts those that it wakes behind the others. False where the run fails.
pub(crate) fn turn<S: StoredDomains>(
    alloc: Global,
    s: &mut S,
    i: u64,
    waiting: &mut Due,
) -> Result<bool, AllocError>
    ensures keeps { Keeps (S.seen s.old) (S.seen s.new) }
    ensures narrower { MayTurn (S.seen s.old).now.state i → IsNarrower (S.seen s.old).now.state (S.seen s.new).now.state }
    ensures turns { IfOk result (λ some. MayTurn (S.seen s.old).now.state i →
        Turns (S.seen s.old).now.state i waiting.old some (S.seen s.new).now.state waiting.new) }
{
    let constraint = s.constraint(alloc, i)?;
    let mut lost = Vec::new(alloc);
    let some = narrow(alloc, s, &constraint, &mut lost)?;
    if !some {
        return Ok(false);
    }
    wake(alloc, s, lost.as_slice(), waiting)?;
    Ok(true)
}

/// Leaves the items of a constraint what its filter leaves, and tells which variables lost a value. False where an item is left
/// nothing. That a constraint is past its limits never comes, and is told as want of memory.
fn narrow<S: StoredDomains>(
    alloc: Global,
    s: &mut S,
    constraint: &Constraint,
    lost: &mut Vec<u64>,
) -> Result<bool, AllocError>
    ensures keeps { Keeps (S.seen s.old) (S.seen s.new) }
    ensures narrower { MayNarrow (S.seen s.old).now.state constraint.now lost.old.items →
        IsNarrower (S.seen s.old).now.state (S.seen s.new).now.state }
    ensures leaves { IfOk result (λ some. MayNarrow (S.seen s.old).now.state constraint.now lost.old.items →
        LeavesAll (S.seen s.old).now.state constraint.now some (S.seen s.new).now.state lost.new.items) }
{
    if !is_within_limits(constraint) {
        return Err(AllocError);
    }
    let items = places(alloc, constraint)?;
    let followed = roots(alloc, s, items.as_slice())?;
    let roots = followed.as_slice();
    let told = filtered(alloc, s, constraint, roots)?;
    let some = leave_all(alloc, s, roots, told.as_slice(), lost)?;
    Ok(some)
}
