//! The facts of a predicate that may unify with a call by what they show in places.
ghost use Rattle.std.specs.Prelude.{◌≡◌, ◌+◌, ◌≤◌, ◌<◌, ℕ, [], length, Contains};
ghost use Rattle.pi_terms.specs.Tree.{Trees, comp};
ghost use Rattle.pi_constraints.specs.State.{IsState};
ghost use Rattle.pi_constraints.specs.Store.{IsTerm};
ghost use Rattle.pi_engine_code.specs.Keys.{Has, places_in};
ghost use Rattle.pi_engine_facts.specs.Keyed.{at_place, sought, HaveKeys, NoneBetween};

use pi_constraints::{Cell, Ref, StateStore};
use pi_core::CoreClause;
use pi_engine_code::{FactKeys, FactPlace, FactValue};

/// The facts of a predicate, which have numbers from the first one on to before the end, and by what they are found.
#[derive(Clone, Copy)]
pub struct Facts<'a> {
    pub clauses: &'a [CoreClause],
    pub keys: &'a FactKeys,
    pub predicate: u32,
    pub first: u32,
    pub end: u32,
}

/// A number from one on, in front of which no fact from that one on unifies with a call.
pub(crate) fn next_alike<S: StateStore>(s: &S, facts: &Facts<'_>, from: u32, call: Ref) -> u32
    ensures from_on { from ≤ result }
    ensures passed { (ts : Trees) → IsState (S.seen s.now).now.state → IsTerm (S.seen s.now) call (comp [] ts) →
        HaveKeys (S.seen s.now).names facts.now.keys.now facts.now.predicate facts.now.clauses.now facts.now.first →
        facts.now.first ≤ from → facts.now.end ≡ facts.now.first + length facts.now.clauses.now →
        NoneBetween ts (S.seen s.now).now.state facts.now.clauses.now facts.now.first from result }
{
    let places = facts.keys.places_of(facts.predicate);
    let mut number = from;
    for i in 0..places.len() {
        number = alike_at(s, facts, places[i], number, call);
    }
    number
}

/// The same by one place.
fn alike_at<S: StateStore>(s: &S, facts: &Facts<'_>, place: u32, from: u32, call: Ref) -> u32
    ensures from_on { from ≤ result }
    ensures passed { (ts : Trees) → IsState (S.seen s.now).now.state → IsTerm (S.seen s.now) call (comp [] ts) →
        HaveKeys (S.seen s.now).names facts.now.keys.now facts.now.predicate facts.now.clauses.now facts.now.first →
        Contains (places_in facts.now.keys.now facts.now.predicate) place → facts.now.first ≤ from →
        facts.now.end ≡ facts.now.first + length facts.now.clauses.now →
        NoneBetween ts (S.seen s.now).now.state facts.now.clauses.now facts.now.first from result }
{
    let cell = s.look(s.arg(call, u64::from(place)));
    let Some(value) = sought(cell) else {
        return from;
    };
    let alike = next_with(facts, place, value, from);
    let any = next_with(facts, place, FactValue::Any, from);
    alike.min(any)
}

/// What a fact has to show in a place where a call shows this, if it doesn't show what has no key; None where anything may stand there.
fn sought(cell: Cell) -> Option<FactValue>
    ensures { result ≡ sought cell }
{
    match cell {
        Cell::Var(_) => None,
        Cell::Int(n) => Some(FactValue::Int(n)),
        Cell::Atom(name) => Some(FactValue::Atom(name)),
        Cell::Comp(_, _) => Some(FactValue::Any),
    }
}

/// The number of the next fact from one on that shows this in a place.
fn next_with(facts: &Facts<'_>, place: u32, value: FactValue, from: u32) -> u32
    ensures from_on { from ≤ result }
    ensures least { (n : ℕ) → from ≤ n → n < facts.now.end → Has facts.now.keys.now (at_place facts.now.predicate place value) n →
        result ≤ n }
{
    let at = FactPlace {
        predicate: facts.predicate,
        place,
        value,
    };
    facts.keys.next(at, from, facts.end)
}
