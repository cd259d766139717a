//! How a search goes on from one state that is asked for to the next.
ghost use Rattle.std.specs.Prelude.{◌≡◌, ◌+◌, ◌-◌, ◌<◌, ◌^◌, ℕ, List, Bool, true, false, Some, [], length, map, reverse, slice_get, IfOk, OnOk};
ghost use Rattle.pi_terms.specs.Tree.{Tree};
ghost use Rattle.pi_plan.specs.declared.given.GivenState.{GivenState};
ghost use Rattle.pi_plan.specs.Plan.{Valid, Wanted};
ghost use Rattle.pi_plan.specs.Given.{GivenFinal, over};
ghost use Rattle.pi_plan.specs.declared.search.Way.{Way};
ghost use Rattle.pi_plan.specs.Ways.{AreWays};
ghost use Rattle.pi_plan.specs.Planner.{first_number_of, IsReady, IsAnswered, IsSpent, Advances, IsPlan};

use crate::given::GivenState;
use crate::search::{Origin, Search, Way, way_at};
use crate::written::list_of;
use pi_terms::Term;
use std::alloc::{AllocError, Global};
use std::collections::{BTreeMap, BTreeSet};

/// A search that is to begin at the start.
pub(crate) fn begin(
    alloc: Global,
    start: &Term,
    limit: u128,
    best: bool,
    by_rest: bool,
) -> Result<Search, AllocError>
    ensures by_rest { IfOk result (λ search. search.by_rest ≡ by_rest) }
    ensures ready { limit < 2 ^ 127 → IfOk result (IsReady (record { best = best; start = start.now; limit = limit }) []) }
{
    let mut search = empty(alloc, by_rest, first_number(limit, best, by_rest));
    search.add_start(alloc, start)?;
    Ok(search)
}

/// A search that knows nothing yet.
fn empty(alloc: Global, by_rest: bool, whole: u128) -> Search
    ensures by_rest { result.by_rest ≡ by_rest }
    ensures whole { result.whole ≡ whole }
    ensures ways { result.ways.items ≡ [] }
    ensures known { result.known.entries ≡ [] }
    ensures frontier { result.frontier.keys ≡ [] }
{
    Search {
        by_rest,
        whole,
        ways: Vec::new(alloc),
        known: BTreeMap::new(alloc),
        frontier: BTreeSet::new(alloc),
    }
}

/// The number that is searched first.
fn first_number(limit: u128, best: bool, by_rest: bool) -> u128
    ensures { result ≡ first_number_of limit best by_rest }
{
    if best {
        if by_rest { 0 } else { limit }
    } else {
        limit
    }
}

/// Adds the ways on which an entry's successors lead from the way with this number.
pub(crate) fn unfold(
    search: &mut Search,
    alloc: Global,
    parent: usize,
    entry: &GivenState,
) -> Result<(), AllocError>
    ensures by_rest { search.new.by_rest ≡ search.old.by_rest }
    ensures ready { (w : Wanted) (given : List GivenState) → IsAnswered w given search.old parent →
        slice_get given (length given - 1) ≡ Some entry.now → entry.now.is_final ≡ false →
        OnOk result (IsReady w given search.new) }
{
    let Some(way) = way_at(&search.ways, parent) else {
        return Ok(());
    };
    let rest = way.rest;
    let successors = entry.successors.as_slice();
    for successor in successors {
        search.add_step(alloc, parent, rest, successor)?;
    }
    Ok(())
}

/// The next way to be asked for; None where there is no plan.
pub(crate) fn advance(
    search: &mut Search,
    alloc: Global,
    start: &Term,
    limit: u128,
) -> Result<Option<usize>, AllocError>
    ensures by_rest { search.new.by_rest ≡ search.old.by_rest }
    ensures advances { (w : Wanted) (given : List GivenState) → w.start ≡ start.now → w.limit ≡ limit →
        IsReady w given search.old → IfOk result (Advances w given search.new) }
{
    loop {
        if let Some(way) = search.pop() {
            return Ok(Some(way));
        }
        if search.whole >= limit {
            return Ok(None);
        }
        begin_next(search, alloc, start)?;
    }
}

/// Begins to search under the next number.
fn begin_next(search: &mut Search, alloc: Global, start: &Term) -> Result<(), AllocError>
    requires { search.old.whole < 2 ^ 128 - 1 }
    ensures by_rest { search.new.by_rest ≡ search.old.by_rest }
    ensures whole { OnOk result (search.new.whole ≡ search.old.whole + 1) }
    ensures ready { (w : Wanted) (given : List GivenState) → w.start ≡ start.now → search.old.whole < w.limit →
        IsSpent w given search.old → OnOk result (IsReady w given search.new) }
{
    search.whole += 1;
    search.ways.clear();
    search.add_start(alloc, start)?;
    Ok(())
}

/// The plan that a way is, as the list of its actions.
pub(crate) fn plan_of(alloc: Global, ways: &[Way], number: usize) -> Result<Term, AllocError>
    ensures { (given : List GivenState) (by_rest : Bool) (start : Tree) (whole : ℕ) (w : Way) →
        AreWays (over given by_rest) start whole ways.now → slice_get ways.now number ≡ Some w →
        GivenFinal given by_rest w.place.state w.rest → IfOk result (IsPlan given by_rest start whole (whole - w.rest)) }
{
    let actions = actions_to(alloc, ways, number)?;
    let plan = list_of(alloc, &actions)?;
    Ok(plan)
}

/// The actions of a way, from the last one back.
fn actions_to(alloc: Global, ways: &[Way], number: usize) -> Result<Vec<&Term>, AllocError>
    ensures { (given : List GivenState) (by_rest : Bool) (start : Tree) (whole : ℕ) (w : Way) →
        AreWays (over given by_rest) start whole ways.now → slice_get ways.now number ≡ Some w →
        GivenFinal given by_rest w.place.state w.rest →
        IfOk result (λ actions. Valid (over given by_rest) start whole (reverse (map (λ a. a.now) actions.items))
        (whole - w.rest)) }
{
    let mut actions = Vec::new(alloc);
    let mut at = number;
    loop {
        let Some(way) = way_at(ways, at) else {
            return Ok(actions);
        };
        let Origin::Step { parent, action } = &way.origin else {
            return Ok(actions);
        };
        if *parent >= at {
            return Ok(actions);
        }
        actions.push(action)?;
        at = *parent;
    }
}
