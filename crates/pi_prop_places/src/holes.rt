//! Spans that lose one value where they stand.
ghost use Rattle.std.specs.Prelude.{◌≡◌, ◌<◌, ◌&&◌, not, ℤ, ◌≤ℤ◌, IfOk, length, get_or};
ghost use Rattle.std.specs.Ordering.{int_eq};
ghost use Rattle.pi_constraints.specs.declared.domain.Span.{Span};
ghost use Rattle.pi_constraints.specs.Domain.{IsDomain, has_value};

use crate::cuts::count_below;
use pi_constraints::Span;
use std::alloc::AllocError;

/// Leaves the values other than `n`. Memory is wanted only where a span falls into two.
pub(crate) fn drop_one(spans: &mut Vec<Span>, n: i128) -> Result<(), AllocError>
    requires { IsDomain spans.old.items }
    ensures domain { IsDomain spans.new.items }
    ensures values { IfOk result (λ _. (m : ℤ) → has_value spans.new.items m ≡ (has_value spans.old.items m && not (int_eq m n))) }
{
    let at = count_below(spans.as_slice(), n);
    if at == spans.len() {
        return Ok(());
    }
    if n < i128::from(spans[at].lo) {
        return Ok(());
    }
    drop_from(spans, at, n as i64)?;
    Ok(())
}

/// Leaves the values other than `n`, which lies in the span with this number.
fn drop_from(spans: &mut Vec<Span>, at: usize, n: i64) -> Result<(), AllocError>
    requires domain { IsDomain spans.old.items }
    requires inside { at < length spans.old.items }
    requires low { (e : Span) → (get_or spans.old.items at e).lo ≤ℤ n }
    requires high { (e : Span) → n ≤ℤ (get_or spans.old.items at e).hi }
    ensures domain { IsDomain spans.new.items }
    ensures values { IfOk result (λ _. (m : ℤ) → has_value spans.new.items m ≡ (has_value spans.old.items m && not (int_eq m n))) }
{
    let Span { lo, hi } = spans[at];
    if lo == hi {
        spans.remove(at);
        return Ok(());
    }
    if lo == n {
        spans[at] = Span { lo: n + 1, hi };
        return Ok(());
    }
    if n == hi {
        spans[at] = Span { lo, hi: n - 1 };
        return Ok(());
    }
    spans.insert(at + 1, Span { lo: n + 1, hi })?;
    spans[at] = Span { lo, hi: n - 1 };
    Ok(())
}
