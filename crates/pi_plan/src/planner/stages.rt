//! From one stage of a planner to the next, and what is answered there.
ghost use Rattle.std.specs.Prelude.{◌≡◌, ◌-◌, List, true, Some, length, slice_get, IfOk, OnErr, option_copied};
ghost use Rattle.pi_plan.specs.declared.given.GivenState.{GivenState};
ghost use Rattle.pi_plan.specs.Plan.{Wanted};
ghost use Rattle.pi_plan.specs.Planner.{IsReady, IsAnswered, StageIs, MayLack, Tells};

use super::entry::told_number;
use super::{Ending, PlanStep, Stage};
use crate::advance::{advance, plan_of, unfold};
use crate::given::GivenState;
use crate::search::{Search, Way, way_at};
use pi_terms::Term;
use std::alloc::{AllocError, Global};

/// Where the search comes to from where all is unfolded.
pub(crate) fn from_ready(
    search: &mut Search,
    alloc: Global,
    start: &Term,
    limit: u128,
) -> Result<Stage, AllocError>
    ensures by_rest { search.new.by_rest ≡ search.old.by_rest }
    ensures goes { (w : Wanted) (given : List GivenState) → w.start ≡ start.now → w.limit ≡ limit → IsReady w given search.old →
        IfOk result (StageIs w given search.new) }
{
    match advance(search, alloc, start, limit)? {
        Some(way) => Ok(Stage::Asked(way)),
        None => Ok(Stage::Ended(Ending::NoPlan)),
    }
}

/// Where the search comes to from where the last entry is for a way.
pub(crate) fn from_given(
    search: &mut Search,
    alloc: Global,
    start: &Term,
    limit: u128,
    given: &[GivenState],
    way: usize,
) -> Result<Stage, AllocError>
    ensures by_rest { search.new.by_rest ≡ search.old.by_rest }
    ensures goes { (w : Wanted) → w.start ≡ start.now → w.limit ≡ limit → IsAnswered w given.now search.old way →
        IfOk result (StageIs w given.now search.new) }
{
    let Some(entry) = last_of(given) else {
        return Err(AllocError);
    };
    if entry.is_final {
        return found(search, alloc, way);
    }
    unfold(search, alloc, way, entry)?;
    from_ready(search, alloc, start, limit)
}

fn last_of(given: &[GivenState]) -> Option<&GivenState>
    ensures { option_copied result ≡ slice_get given.now (length given.now - 1) }
{
    given.last()
}

/// The end in the plan that a way is, where its state is final.
fn found(search: &Search, alloc: Global, way: usize) -> Result<Stage, AllocError>
    ensures { (w : Wanted) (given : List GivenState) → (h : IsAnswered w given search.now way) → h.entry.is_final ≡ true →
        IfOk result (StageIs w given search.now) }
{
    let plan = plan_of(alloc, &search.ways, way)?;
    let Some(way) = way_at(&search.ways, way) else {
        return Err(AllocError);
    };
    let cost = told_number(search.whole.saturating_sub(way.rest));
    Ok(Stage::Ended(Ending::Found { plan, cost }))
}

/// What is answered at a stage. At those in between, where none is answered, there is no step.
pub(crate) fn told(alloc: Global, stage: &Stage, ways: &[Way]) -> Result<PlanStep, AllocError>
    ensures tells { IfOk result (Tells stage.now ways.now) }
    ensures lacks { OnErr result (MayLack stage.now) }
{
    match stage {
        Stage::Ready => Err(AllocError),
        Stage::Asked(way) => {
            let Some(way) = way_at(ways, *way) else {
                return Err(AllocError);
            };
            let state = way.place.state.copy(alloc)?;
            Ok(PlanStep::Expand(state, told_number(way.rest)))
        }
        Stage::Given(_) => Err(AllocError),
        Stage::Ended(Ending::Found { plan, cost }) => Ok(PlanStep::Found {
            plan: plan.copy(alloc)?,
            cost: *cost,
        }),
        Stage::Ended(Ending::NoPlan) => Ok(PlanStep::NoPlan),
        Stage::Ended(Ending::Memory) => Ok(PlanStep::Memory),
    }
}
