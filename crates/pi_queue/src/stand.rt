//! Where the spans of a place stand.
ghost use Rattle.std.specs.Prelude.{◌≡◌, ◌<◌, Some, length, slice_get};
ghost use Rattle.pi_constraints.specs.Constraint.{IsItem};
ghost use Rattle.pi_constraints.specs.Domain.{IsDomain, IsWithinBounds};
ghost use Rattle.pi_constraints.specs.State.{State};
ghost use Rattle.pi_queue.specs.Standing.{IsStand, span_of, standing, standing_at};

use pi_constraints::{Item, MAX_VALUE, Span, StoredDomains};

/// Where spans stand: nowhere, as the one of an integer, or as those of a variable in a store.
#[derive(Clone, Copy)]
pub enum Stand {
    Nowhere,
    One(i64),
    Variable(u64),
}

/// Where the spans of an item stand; nowhere where it is an integer that no domain has.
pub(crate) fn stand_of(item: Item) -> Stand
    ensures same { (s : State) → IsItem item → standing s result ≡ standing_at s item }
    ensures stand { IsStand result }
{
    match item {
        Item::Var(v) => Stand::Variable(v),
        Item::Int(n) => stand_of_integer(n),
    }
}

/// The same of an integer.
fn stand_of_integer(n: i64) -> Stand
    ensures same { (s : State) → IsWithinBounds n → standing s result ≡ span_of n }
    ensures stand { IsStand result }
{
    if n < -MAX_VALUE {
        return Stand::Nowhere;
    }
    if n > MAX_VALUE {
        return Stand::Nowhere;
    }
    Stand::One(n)
}

/// How many spans stand there.
pub(crate) fn standing_count<S: StoredDomains>(store: &S, stand: Stand) -> usize
    ensures count { result ≡ length (standing (S.seen store.now).now.state stand) }
    ensures domain { IsStand stand → IsDomain (standing (S.seen store.now).now.state stand) }
{
    match stand {
        Stand::Nowhere => 0,
        Stand::One(_) => 1,
        Stand::Variable(v) => store.span_count(v),
    }
}

/// The span with a number, counted from 0.
pub(crate) fn standing_span<S: StoredDomains>(store: &S, stand: Stand, k: usize) -> Span
    ensures { k < length (standing (S.seen store.now).now.state stand) →
        slice_get (standing (S.seen store.now).now.state stand) k ≡ Some result }
{
    match stand {
        Stand::Nowhere => Span { lo: 0, hi: 0 },
        Stand::One(n) => Span { lo: n, hi: n },
        Stand::Variable(v) => store.span(v, k),
    }
}
