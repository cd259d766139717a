//! Questions about the values at places, which take no memory.
ghost use Rattle.std.specs.Prelude.{◌≡◌, ◌↔◌, true, false, IsTrue, ℤ, ◌≤ℤ◌, ◌<ℤ◌, int_lt};
ghost use Rattle.std.specs.List.Sorted.{IsPartitionPoint};
ghost use Rattle.pi_constraints.specs.Domain.{has_value};
ghost use Rattle.pi_prop_spec.specs.Rules.{ShareAValue};
ghost use Rattle.pi_prop_places.specs.Reads.{HasValueBetween};

use crate::held::Held;
use pi_constraints::{Span, StoredDomains};

/// How many spans end below `n`. It looks at no more of them than their number has binary digits.
fn count_below<S: StoredDomains>(held: &Held<S>, n: i128) -> usize
    ensures { IsPartitionPoint (λ s. int_lt s.hi n ≡ true) (λ s. int_lt s.hi n ≡ false) held.now result }
{
    let (mut low, mut high) = (0, held.len());
    while low < high {
        let middle = low + (high - low) / 2;
        if ends_below(held.span(middle), n) {
            low = middle + 1;
        } else {
            high = middle;
        }
    }
    low
}

/// Whether a span ends below `n`.
fn ends_below(span: Span, n: i128) -> bool
    ensures { result ≡ int_lt span.hi n }
{
    i128::from(span.hi) < n
}

/// Whether a place has a value from `lo` to `hi`.
pub(crate) fn has_value_between<S: StoredDomains>(held: &Held<S>, lo: i128, hi: i128) -> bool
    ensures { IsTrue result ↔ HasValueBetween held.now lo hi }
{
    if hi < lo {
        return false;
    }
    let at = count_below(held, lo);
    if held.len() <= at {
        return false;
    }
    begins_up_to(held.span(at), hi)
}

/// Whether a span begins at `n` or below it.
fn begins_up_to(span: Span, n: i128) -> bool
    ensures { IsTrue result ↔ (span.lo ≤ℤ n) }
{
    i128::from(span.lo) <= n
}

/// Whether two places have a value in common. It looks once at each span, up to the first value that they share.
pub(crate) fn share<S: StoredDomains>(d: &Held<S>, e: &Held<S>) -> bool
    ensures { IsTrue result ↔ ShareAValue d.now e.now }
{
    let (mut i, mut j) = (0, 0);
    while i < d.len() && j < e.len() {
        let (one, other) = (d.span(i), e.span(j));
        let before = lies_before(one, other);
        let behind = lies_before(other, one);
        if before {
            i += 1;
        } else if behind {
            j += 1;
        } else {
            return true;
        }
    }
    false
}

/// Whether one span ends below where another begins.
fn lies_before(one: Span, other: Span) -> bool
    ensures { IsTrue result ↔ (one.hi <ℤ other.lo) }
{
    one.hi < other.lo
}

/// Whether other spans have all values of a place, as it is seen by spans that lie in one another. It looks once at each span.
pub(crate) fn lies_within<S: StoredDomains>(held: &Held<S>, others: &[Span]) -> bool
    ensures { IsTrue result → (m : ℤ) → IsTrue (has_value held.now m) → IsTrue (has_value others.now m) }
{
    let (mut i, mut j) = (0, 0);
    while i < held.len() {
        if others.len() <= j {
            return false;
        }
        let span = held.span(i);
        if lies_before(others[j], span) {
            j += 1;
            continue;
        }
        if !lies_in(span, others[j]) {
            return false;
        }
        i += 1;
    }
    true
}

/// Whether a span lies within another one.
fn lies_in(span: Span, other: Span) -> bool
    ensures { IsTrue result ↔ ((other.lo ≤ℤ span.lo) × (span.hi ≤ℤ other.hi)) }
{
    other.lo <= span.lo && span.hi <= other.hi
}

/// Whether two places have the same spans.
pub(crate) fn are_same<S: StoredDomains>(d: &Held<S>, e: &Held<S>) -> bool
    ensures { IsTrue result → d.now ≡ e.now }
{
    if d.len() != e.len() {
        return false;
    }
    for k in 0..d.len() {
        if !is_same(d.span(k), e.span(k)) {
            return false;
        }
    }
    true
}

/// Whether two spans are the same.
fn is_same(one: Span, other: Span) -> bool
    ensures { IsTrue result → one ≡ other }
{
    one.lo == other.lo && one.hi == other.hi
}
