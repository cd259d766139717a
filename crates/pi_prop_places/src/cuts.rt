//! Spans that are cut at their ends where they stand.
ghost use Rattle.std.specs.Prelude.{◌≡◌, ◌+◌, ◌≤◌, ◌<◌, ◌&&◌, ℕ, ℤ, ◌≤ℤ◌, int_le, length, drop, take, get_or};
ghost use Rattle.pi_constraints.specs.declared.domain.Span.{Span};
ghost use Rattle.pi_constraints.specs.Domain.{IsDomain, has_value};

use pi_constraints::Span;

/// Leaves the values that are at least `n`.
pub(crate) fn drop_below(spans: &mut Vec<Span>, n: i128)
    requires { IsDomain spans.old.items }
    ensures domain { IsDomain spans.new.items }
    ensures values { (m : ℤ) → has_value spans.new.items m ≡ (has_value spans.old.items m && int_le n m) }
{
    let gone = count_below(spans.as_slice(), n);
    let left = spans.len() - gone;
    spans.as_mut_slice().rotate_left(gone);
    spans.truncate(left);
    raise_first(spans, n);
}

/// How many spans end below `n`.
pub(crate) fn count_below(spans: &[Span], n: i128) -> usize
    ensures few { result ≤ length spans.now }
    ensures same { (m : ℤ) → n ≤ℤ m → has_value (drop result spans.now) m ≡ has_value spans.now m }
    ensures next { (other : Span) → result < length spans.now → n ≤ℤ (get_or spans.now result other).hi }
{
    let mut gone = 0;
    while gone < spans.len() && i128::from(spans[gone].hi) < n {
        gone += 1;
    }
    gone
}

/// Lets the first span begin at `n`, where it begins below it.
fn raise_first(spans: &mut Vec<Span>, n: i128)
    requires domain { IsDomain spans.old.items }
    requires first { (other : Span) → 0 < length spans.old.items → n ≤ℤ (get_or spans.old.items 0 other).hi }
    ensures domain { IsDomain spans.new.items }
    ensures values { (m : ℤ) → has_value spans.new.items m ≡ (has_value spans.old.items m && int_le n m) }
{
    if spans.is_empty() {
        return;
    }
    let Span { lo, hi } = spans[0];
    if i128::from(lo) < n {
        spans[0] = Span { lo: n as i64, hi };
    }
}

/// Leaves the values that are at most `n`.
pub(crate) fn drop_above(spans: &mut Vec<Span>, n: i128)
    requires { IsDomain spans.old.items }
    ensures domain { IsDomain spans.new.items }
    ensures values { (m : ℤ) → has_value spans.new.items m ≡ (has_value spans.old.items m && int_le m n) }
{
    let left = count_up_to(spans.as_slice(), n);
    spans.truncate(left);
    lower_last(spans, n);
}

/// How many spans begin at `n` or below it.
fn count_up_to(spans: &[Span], n: i128) -> usize
    ensures few { result ≤ length spans.now }
    ensures same { (m : ℤ) → m ≤ℤ n → has_value (take result spans.now) m ≡ has_value spans.now m }
    ensures last { (k : ℕ) (other : Span) → k + 1 ≡ result → (get_or spans.now k other).lo ≤ℤ n }
{
    let mut left = spans.len();
    while left > 0 && n < i128::from(spans[left - 1].lo) {
        left -= 1;
    }
    left
}

/// Lets the last span end at `n`, where it ends above it.
fn lower_last(spans: &mut Vec<Span>, n: i128)
    requires domain { IsDomain spans.old.items }
    requires last { (k : ℕ) (other : Span) → k + 1 ≡ length spans.old.items → (get_or spans.old.items k other).lo ≤ℤ n }
    ensures domain { IsDomain spans.new.items }
    ensures values { (m : ℤ) → has_value spans.new.items m ≡ (has_value spans.old.items m && int_le m n) }
{
    if spans.is_empty() {
        return;
    }
    let last = spans.len() - 1;
    let Span { lo, hi } = spans[last];
    if n < i128::from(hi) {
        spans[last] = Span { lo, hi: n as i64 };
    }
}
