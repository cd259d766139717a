//! What a search knows: the ways that it found, what is known of each place, and which ways are due.
ghost use Rattle.std.specs.Prelude.{◌≡◌, ◌+◌, ◌<◌, ◌≤◌, ◌++◌, ◌∷◌, [], List, ℕ, true, false, length, IfOk, OnOk, slice_get, option_copied};
ghost use Rattle.pi_terms.specs.Tree.{Tree};
ghost use Rattle.pi_plan.specs.declared.given.GivenState.{GivenState};
ghost use Rattle.std.specs.BTreeMap.{get};
ghost use Rattle.pi_plan.specs.Place.{place_of, place_order};
ghost use Rattle.pi_plan.specs.Searching.{Asked, weight};
ghost use Rattle.pi_plan.specs.Search.{known_of, covers, opens, start_way, Keeps, Puts, Adds, AddsStep, Marks, IsSearchNow, IsFirst, so_far, Taken, Pops};

use crate::checks::cost_of;
use crate::due::Due;
use crate::given::Successor;
use crate::place::Place;
use pi_terms::Term;
use std::alloc::{AllocError, Global};
use std::collections::{BTreeMap, BTreeSet};

/// Where a way comes from.
#[derive(Drop)]
pub(crate) enum Origin {
    Start,
    /// One more step behind the way with this number.
    Step { parent: usize, action: Term },
}

/// A way to a state.
#[derive(Drop)]
pub(crate) struct Way {
    pub(crate) place: Place,
    pub(crate) rest: u128,
    pub(crate) origin: Origin,
}

/// What is known of a place: the cost of the best way to it, and whether it was asked for.
#[derive(Clone, Copy)]
pub(crate) struct Standing {
    pub(crate) cost: u128,
    pub(crate) is_asked: bool,
}

/// A search under a whole limit.
pub(crate) struct Search {
    pub(crate) by_rest: bool,
    pub(crate) whole: u128,
    pub(crate) ways: Vec<Way>,
    pub(crate) known: BTreeMap<Place, Standing>,
    pub(crate) frontier: BTreeSet<Due>,
}

// By hand, so that letting one go is a call and not its parts at each way out.
impl Drop for Search {
    fn drop(self) {
        let Search {
            by_rest: _,
            whole: _,
            ways: _,
            known: _,
            frontier: _,
        } = self;
    }
}

impl Search {
    /// What the frontier goes by.
    fn cost(&self, rest: u128) -> u128
        ensures { result ≡ weight self.now.by_rest self.now.whole rest }
    {
        if self.by_rest {
            0
        } else {
            self.whole.saturating_sub(rest)
        }
    }

    fn place(&self, alloc: Global, state: &Term, rest: u128) -> Result<Place, AllocError>
        ensures { IfOk result (λ place. place ≡ place_of self.now.by_rest state.now rest) }
    {
        let state = state.copy(alloc)?;
        let rest = if self.by_rest { rest } else { 0 };
        Ok(Place { state, rest })
    }

    /// Whether a way is known to a place that costs no more.
    fn is_known(&self, place: &Place, cost: u128) -> bool
        ensures { result ≡ covers (known_of self.now place.now) cost }
    {
        match self.known.get(place) {
            Some(standing) => standing.cost <= cost,
            None => false,
        }
    }

    /// Puts a way, to a place to which none is known that costs no more.
    fn put(&mut self, place: Place, way: Way) -> Result<(), AllocError>
        ensures keeps { Keeps self.old self.new }
        ensures puts { OnOk result (Puts self.old self.new place way (weight self.old.by_rest self.old.whole way.rest)) }
    {
        let cost = self.cost(way.rest);
        let number = self.ways.len();
        self.ways.push(way)?;
        self.known.insert(
            place,
            Standing {
                cost,
                is_asked: false,
            },
        )?;
        self.frontier.insert(Due { cost, way: number })?;
        Ok(())
    }

    /// Adds the start under the whole limit.
    pub(crate) fn add_start(&mut self, alloc: Global, start: &Term) -> Result<(), AllocError>
        ensures keeps { Keeps self.old self.new }
        ensures adds { OnOk result (Adds self.old self.new (place_of self.old.by_rest start.now self.old.whole)
            (start_way self.old.by_rest start.now self.old.whole) (weight self.old.by_rest self.old.whole self.old.whole)) }
    {
        let rest = self.whole;
        let place = self.place(alloc, start, rest)?;
        if self.is_known(&place, self.cost(rest)) {
            return Ok(());
        }
        let way = Way {
            place: place.copy(alloc)?,
            rest,
            origin: Origin::Start,
        };
        self.put(place, way)?;
        Ok(())
    }

    /// Adds the way on which an answer of `action` leads from the way with this number, which has this rest.
    pub(crate) fn add_step(
        &mut self,
        alloc: Global,
        parent: usize,
        rest: u128,
        successor: &Successor,
    ) -> Result<(), AllocError>
        ensures keeps { Keeps self.old self.new }
        ensures adds { OnOk result (AddsStep self.old self.new parent rest successor.now) }
    {
        let Some(cost) = cost_of(&successor.cost) else {
            return Ok(());
        };
        if cost > rest {
            return Ok(());
        }
        let left = rest - cost;
        let place = self.place(alloc, &successor.state, left)?;
        if self.is_known(&place, self.cost(left)) {
            return Ok(());
        }
        let action = successor.action.copy(alloc)?;
        let way = Way {
            place: place.copy(alloc)?,
            rest: left,
            origin: Origin::Step { parent, action },
        };
        self.put(place, way)?;
        Ok(())
    }

    /// Takes the first way that is due to a place that wasn't asked for, and counts the place as asked for.
    pub(crate) fn pop(&mut self) -> Option<usize>
        ensures keeps { Keeps self.old self.new }
        ensures pops { (level : ℕ) (unfolded : List GivenState) (asked : List Asked) → IsSearchNow self.old level unfolded asked →
            Pops self.old self.new (so_far level unfolded asked) result }
    {
        while let Some(due) = self.frontier.pop_first() {
            if self.take(due) {
                return Some(due.way);
            }
        }
        None
    }

    /// Takes a way that was the first due one, unless its place was asked for.
    fn take(&mut self, due: Due) -> bool
        ensures keeps { Keeps self.old self.new }
        ensures frontier { self.new.frontier.keys ≡ self.old.frontier.keys }
        ensures takes { (level : ℕ) (unfolded : List GivenState) (asked : List Asked) → IsFirst self.old level unfolded asked due →
            Taken self.old self.new (so_far level unfolded asked) due.way result }
    {
        let Some(way) = way_at(&self.ways, due.way) else {
            return false;
        };
        if !is_open(&self.known, &way.place) {
            return false;
        }
        mark(&mut self.known, &way.place, due.cost);
        true
    }
}

/// The way with this number.
pub(crate) fn way_at(ways: &[Way], number: usize) -> Option<&Way>
    ensures { option_copied result ≡ slice_get ways.now number }
{
    ways.get(number)
}

/// Whether a way is known to a place that wasn't asked for.
fn is_open(known: &BTreeMap<Place, Standing>, place: &Place) -> bool
    ensures { result ≡ opens (get place_order known.now place.now) }
{
    match known.get(place) {
        Some(standing) => !standing.is_asked,
        None => false,
    }
}

/// Counts a place that is known as asked for, by a way of this cost.
fn mark(known: &mut BTreeMap<Place, Standing>, place: &Place, cost: u128)
    ensures { opens (get place_order known.old place.now) ≡ true → Marks known.old known.new place.now cost }
{
    if let Some(standing) = known.get_mut(place) {
        *standing = Standing {
            cost,
            is_asked: true,
        };
    }
}
