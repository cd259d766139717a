//! Domains that are made of integers, and of parts of other domains.
ghost use Rattle.std.specs.Prelude.{◌≡◌, ◌↔◌, ◌++◌, ◌&&◌, not, ℤ, pos, ◌≤ℤ◌, neg_ℤ, int_le, IsTrue, IfOk, Err, Contains, All, List, []};
ghost use Rattle.std.specs.Ordering.{int_eq, int_cmp};
ghost use Rattle.std.specs.List.{list_any};
ghost use Rattle.std.specs.Option.{option_to_list};
ghost use Rattle.std.specs.List.Sorted.{IsSorted};
ghost use Rattle.pi_constraints.specs.Domain.{IsWithinBounds, IsDomain, has_value};
ghost use Rattle.pi_constraints.specs.Domain.{overlap};
ghost use Rattle.pi_constraints.specs.declared.fault.DomFault.TheVariants.{TooWide};

use crate::domain::{Domain, MAX_VALUE, Span};
use crate::fault::DomFault;
use std::alloc::{AllocError, Global};

/// The integers from `lo` to `hi`; there are none where `lo` is above `hi`. TooWide where one of them lies past the bounds
/// of domains.
pub fn of_span(alloc: Global, lo: i128, hi: i128) -> Result<Domain, DomFault>
    ensures values { IfOk result (λ made. (n : ℤ) → has_value made n ≡ (int_le lo n && int_le n hi)) }
    ensures too_wide { (result ≡ Err TooWide) ↔ ((n : ℤ) × (lo ≤ℤ n) × (n ≤ℤ hi) × ¬ IsWithinBounds n) }
{
    if !is_span_within_bounds(lo, hi) {
        return Err(DomFault::TooWide);
    }
    Ok(clipped(alloc, lo, hi)?)
}

/// The integers of a list, in which one may stand more than once. TooWide where one of them lies past the bounds of
/// domains.
pub fn of_list(alloc: Global, values: &[i128]) -> Result<Domain, DomFault>
    ensures values { IfOk result (λ made. (n : ℤ) → IsTrue (has_value made n) ↔ Contains values.now n) }
    ensures too_wide { (result ≡ Err TooWide) ↔ ((n : ℤ) × Contains values.now n × ¬ IsWithinBounds n) }
{
    if !values.iter().all(|n| is_within_bounds(*n)) {
        return Err(DomFault::TooWide);
    }
    let mut ascending = values.to_vec(alloc)?;
    ascending.sort()?;
    let spans = joined(alloc, ascending.as_slice())?;
    Ok(Domain::new(spans))
}

/// The integers from `lo` to `hi` that are within the bounds of domains.
pub(crate) fn clipped(alloc: Global, lo: i128, hi: i128) -> Result<Domain, AllocError>
    ensures domain { IfOk result (λ made. IsDomain made) }
    ensures values { IfOk result (λ made. (n : ℤ) → IsWithinBounds n → has_value made n ≡ (int_le lo n && int_le n hi)) }
{
    let mut spans = Vec::new(alloc);
    push_clipped(&mut spans, lo, hi)?;
    Ok(Domain::new(spans))
}

/// The integers within the bounds of domains other than `n`.
pub(crate) fn all_but(alloc: Global, n: i128) -> Result<Domain, AllocError>
    ensures values { IfOk result (λ made. (m : ℤ) → IsWithinBounds m → has_value made m ≡ not (int_eq m n)) }
{
    let bound = i128::from(MAX_VALUE);
    if !is_within_bounds(n) {
        return clipped(alloc, -bound, bound);
    }
    let mut spans = Vec::new(alloc);
    push_clipped(&mut spans, -bound, n - 1)?;
    push_clipped(&mut spans, n + 1, bound)?;
    Ok(Domain::new(spans))
}

/// Puts the span of the integers from `lo` to `hi` within the bounds behind the others, where there is such an integer.
fn push_clipped(spans: &mut Vec<Span>, lo: i128, hi: i128) -> Result<(), AllocError>
    ensures ok { IfOk result (λ _. spans.new.items ≡
        spans.old.items ++ overlap (record { lo = lo; hi = hi }) (record { lo = neg_ℤ MAX_VALUE; hi = MAX_VALUE })) }
{
    let lo = lo.max(i128::from(-MAX_VALUE));
    let hi = hi.min(i128::from(MAX_VALUE));
    if lo <= hi {
        let (lo, hi) = (narrowed(lo), narrowed(hi));
        spans.push(Span { lo, hi })?;
    }
    Ok(())
}

/// The spans of ascending integers, in which one may stand more than once.
fn joined(alloc: Global, values: &[i128]) -> Result<Vec<Span>, AllocError>
    requires ascending { IsSorted int_cmp values.now }
    requires within { All IsWithinBounds values.now }
    ensures domain { IfOk result (λ made. IsDomain made.items) }
    ensures values { IfOk result (λ made. (n : ℤ) → has_value made.items n ≡ list_any (int_eq n) values.now) }
{
    let mut spans = Vec::new(alloc);
    if values.is_empty() {
        return Ok(spans);
    }
    let first = narrowed(values[0]);
    let mut last = Span {
        lo: first,
        hi: first,
    };
    for i in 1..values.len() {
        let value = narrowed(values[i]);
        if value > last.hi + 1 {
            spans.push(last)?;
            last.lo = value;
        }
        last.hi = value;
    }
    spans.push(last)?;
    Ok(spans)
}

/// Whether a domain can have all integers from `lo` to `hi` as values.
fn is_span_within_bounds(lo: i128, hi: i128) -> bool
    ensures { IsTrue result ↔ (lo ≤ℤ hi → IsWithinBounds lo × IsWithinBounds hi) }
{
    lo > hi || (is_within_bounds(lo) && is_within_bounds(hi))
}

/// Whether a domain can have `n` as a value.
fn is_within_bounds(n: i128) -> bool
    ensures { IsTrue result ↔ IsWithinBounds n }
{
    let bound = i128::from(MAX_VALUE);
    -bound <= n && n <= bound
}

/// The same integer in 64 bits.
fn narrowed(n: i128) -> i64
    requires { IsWithinBounds n }
    ensures { result ≡ n }
{
    n as i64
}
