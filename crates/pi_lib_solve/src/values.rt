//! The values of a variable's domain, read where they stand.
ghost use Rattle.std.specs.Prelude.{◌≡◌, ℕ, pos, ◌+ℤ◌, ◌≤ℤ◌, ◌<ℤ◌, suc, true, false, int_lt, slice_get, option_map, None};
ghost use Rattle.std.specs.Int.{int_gap};
ghost use Rattle.std.specs.List.Sorted.{IsPartitionPoint};
ghost use Rattle.pi_constraints.specs.declared.domain.Span.{Span};
ghost use Rattle.pi_constraints.specs.Domain.{IsDomain, IsWithinBounds, has_value, size_of};
ghost use Rattle.pi_constraints.specs.Stored.{stored};
ghost use Rattle.pi_label.specs.Beside.{IsNextAbove, IsNextBelow, ShowsEnds};

use pi_constraints::{Span, StoredDomains};

/// From the least to the greatest value of a variable; None where it has no domain.
pub(crate) fn ends<S: StoredDomains>(s: &S, n: u64) -> Option<Span>
    ensures domain { IsDomain (stored (S.seen s.now).now.state n) }
    ensures ends { ShowsEnds (stored (S.seen s.now).now.state n) result }
{
    let count = s.span_count(n);
    if count == 0 {
        return None;
    }
    let first = s.span(n, 0);
    let last = s.span(n, count - 1);
    Some(Span {
        lo: first.lo,
        hi: last.hi,
    })
}

/// How many values a variable has; 0 where it has no domain. It looks once at each span.
pub(crate) fn value_count<S: StoredDomains>(s: &S, n: u64) -> u64
    ensures { result ≡ size_of (stored (S.seen s.now).now.state n) }
{
    let end = s.span_count(n);
    let mut count = 0;
    for k in 0..end {
        count += width(s.span(n, k));
    }
    count
}

/// How many values a span has.
fn width(span: Span) -> u64
    requires ordered { span.lo ≤ℤ span.hi }
    requires low { IsWithinBounds span.lo }
    requires high { IsWithinBounds span.hi }
    ensures { result ≡ suc (int_gap span.lo span.hi) }
{
    (span.hi - span.lo) as u64 + 1
}

/// Whether a variable has this value.
pub(crate) fn has<S: StoredDomains>(s: &S, n: u64, value: i64) -> bool
    ensures domain { IsDomain (stored (S.seen s.now).now.state n) }
    ensures has { result ≡ has_value (stored (S.seen s.now).now.state n) value }
{
    let at = count_below(s, n, i128::from(value));
    match span_at(s, n, at) {
        Some(span) => span.lo <= value,
        None => false,
    }
}

/// The least value of a variable above this one.
pub(crate) fn value_above<S: StoredDomains>(s: &S, n: u64, value: i64) -> Option<i64>
    ensures domain { IsDomain (stored (S.seen s.now).now.state n) }
    ensures next { IsNextAbove (stored (S.seen s.now).now.state n) value result }
{
    let at = count_below(s, n, i128::from(value) + 1);
    match span_at(s, n, at) {
        Some(span) => Some(after(span, value)),
        None => None,
    }
}

/// The least value of a span above this one, where there is one.
fn after(span: Span, value: i64) -> i64
    ensures inside { span.lo ≤ℤ value → value <ℤ span.hi → result ≡ value +ℤ pos 1 }
    ensures above { value <ℤ span.lo → result ≡ span.lo }
{
    if span.lo <= value && value < span.hi {
        value + 1
    } else {
        span.lo
    }
}

/// The greatest value of a variable below this one.
pub(crate) fn value_below<S: StoredDomains>(s: &S, n: u64, value: i64) -> Option<i64>
    ensures domain { IsDomain (stored (S.seen s.now).now.state n) }
    ensures next { IsNextBelow (stored (S.seen s.now).now.state n) value result }
{
    let at = count_below(s, n, i128::from(value));
    let Some(span) = span_at(s, n, at) else {
        return end_before(s, n, at);
    };
    if span.lo < value {
        return Some(value - 1);
    }
    end_before(s, n, at)
}

/// Where the span before this one ends.
fn end_before<S: StoredDomains>(s: &S, n: u64, at: usize) -> Option<i64>
    ensures first { at ≡ 0 → result ≡ None }
    ensures other { (k : ℕ) → at ≡ suc k →
        result ≡ option_map (λ (span : Span). span.hi) (slice_get (stored (S.seen s.now).now.state n) k) }
{
    if at == 0 {
        return None;
    }
    match span_at(s, n, at - 1) {
        Some(span) => Some(span.hi),
        None => None,
    }
}

/// The span with this number; None where there are no more than so many.
fn span_at<S: StoredDomains>(s: &S, n: u64, k: usize) -> Option<Span>
    ensures domain { IsDomain (stored (S.seen s.now).now.state n) }
    ensures span { result ≡ slice_get (stored (S.seen s.now).now.state n) k }
{
    if s.span_count(n) <= k {
        return None;
    }
    Some(s.span(n, k))
}

/// How many spans of a variable end below `value`. It looks at no more of them than their number has binary digits.
fn count_below<S: StoredDomains>(s: &S, n: u64, value: i128) -> usize
    ensures { IsPartitionPoint (λ span. int_lt span.hi value ≡ true) (λ span. int_lt span.hi value ≡ false)
        (stored (S.seen s.now).now.state n) result }
{
    let end = s.span_count(n);
    let (mut low, mut high) = (0, end);
    while low < high {
        let middle = low + (high - low) / 2;
        if ends_below(s.span(n, middle), value) {
            low = middle + 1;
        } else {
            high = middle;
        }
    }
    low
}

/// Whether a span ends below a number.
fn ends_below(span: Span, value: i128) -> bool
    ensures { result ≡ int_lt span.hi value }
{
    i128::from(span.hi) < value
}
