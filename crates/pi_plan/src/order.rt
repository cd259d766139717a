//! The standard order of two terms, by their cells from the left.
ghost use Rattle.std.specs.Prelude.{◌≡◌};
ghost use Rattle.pi_terms.specs.Order.{order};
ghost use Rattle.pi_plan.specs.Roots.{head_order};

use pi_terms::{Term, TermHead};
use std::cmp::Ordering;

/// How two terms stand in the standard order.
pub(crate) fn compare(one: &Term, other: &Term) -> Ordering
    ensures { result ≡ order one.now other.now }
{
    let count = one.cells().min(other.cells());
    for i in 0..count {
        let found = compare_heads(one.head_at(i), other.head_at(i));
        if found.is_ne() {
            return found;
        }
    }
    one.cells().cmp(&other.cells())
}

/// How two terms stand by what they are at their roots.
fn compare_heads(one: TermHead<'_>, other: TermHead<'_>) -> Ordering
    ensures { result ≡ head_order one.entry other.entry }
{
    match one {
        TermHead::Var(m) => match other {
            TermHead::Var(n) => m.cmp(&n),
            TermHead::Int(_) => Ordering::Less,
            TermHead::Atom(_) => Ordering::Less,
            TermHead::Comp(_, _) => Ordering::Less,
        },
        TermHead::Int(m) => match other {
            TermHead::Var(_) => Ordering::Greater,
            TermHead::Int(n) => m.cmp(&n),
            TermHead::Atom(_) => Ordering::Less,
            TermHead::Comp(_, _) => Ordering::Less,
        },
        TermHead::Atom(f) => match other {
            TermHead::Var(_) => Ordering::Greater,
            TermHead::Int(_) => Ordering::Greater,
            TermHead::Atom(g) => f.cmp(g),
            TermHead::Comp(_, _) => Ordering::Less,
        },
        TermHead::Comp(f, m) => match other {
            TermHead::Var(_) => Ordering::Greater,
            TermHead::Int(_) => Ordering::Greater,
            TermHead::Atom(_) => Ordering::Greater,
            TermHead::Comp(g, n) => m.cmp(&n).then(f.cmp(g)),
        },
    }
}
