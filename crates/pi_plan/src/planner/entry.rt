//! What is kept of what a planner was given.
ghost use Rattle.std.specs.Prelude.{◌≡◌, ◌<◌, ◌^◌, Some, slice_get, IfOk, pos};
ghost use Rattle.pi_plan.specs.declared.given.GivenState.{GivenState};
ghost use Rattle.pi_plan.specs.declared.search.Way.{Way};

use crate::given::{GivenState, Successor, Successors};
use crate::search::{Way, way_at};
use pi_terms::Series;
use std::alloc::{AllocError, Global};

/// An entry for the state of a way.
pub(crate) fn entry_of(
    alloc: Global,
    ways: &[Way],
    way: usize,
    is_final: bool,
    successors: &Successors,
) -> Result<GivenState, AllocError>
    ensures { (w : Way) → slice_get ways.now way ≡ Some w → w.rest < 2 ^ 127 →
        IfOk result (λ e. e ≡ record {
          state = w.place.state;
          rest = pos w.rest;
          is_final = is_final;
          successors = successors.now;
        }) }
{
    let Some(way) = way_at(ways, way) else {
        return Err(AllocError);
    };
    Ok(GivenState {
        state: way.place.state.copy(alloc)?,
        rest: told_number(way.rest),
        is_final,
        successors: copy_successors(alloc, successors.as_slice())?,
    })
}

/// A number as it is told. Those of a planner fit.
pub(crate) fn told_number(n: u128) -> i128
    ensures { n < 2 ^ 127 → result ≡ pos n }
{
    if n < 0x8000_0000_0000_0000_0000_0000_0000_0000 {
        n as i128
    } else {
        i128::MAX
    }
}

fn copy_successors(alloc: Global, successors: &[Successor]) -> Result<Successors, AllocError>
    ensures { IfOk result (λ made. made ≡ successors.now) }
{
    let mut copies = Series::new(alloc);
    for successor in successors {
        copies.push(copy_successor(alloc, successor)?)?;
    }
    Ok(copies)
}

fn copy_successor(alloc: Global, successor: &Successor) -> Result<Successor, AllocError>
    ensures { IfOk result (λ made. made ≡ successor.now) }
{
    Ok(Successor {
        state: successor.state.copy(alloc)?,
        action: successor.action.copy(alloc)?,
        cost: successor.cost.copy(alloc)?,
    })
}
