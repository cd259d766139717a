//! Spans in any order, as the domain of all numbers that lie in them.
ghost use Rattle.std.specs.Prelude.{◌≡◌, All, IfOk, ℤ};
ghost use Rattle.pi_constraints.specs.Domain.{IsDomain, has_value};
ghost use Rattle.pi_prop_filters.specs.Spans.{IsSpan, AscendByStart};

use pi_constraints::{Domain, Span};
use std::alloc::{AllocError, Global};

/// The domain of the numbers that lie in one of the spans.
pub(crate) fn domain_of(alloc: Global, mut spans: Vec<Span>) -> Result<Domain, AllocError>
    requires { All IsSpan spans.items }
    ensures { IfOk result (λ made. (n : ℤ) → has_value made n ≡ has_value spans.items n) }
{
    spans.sort_unstable_by_key(|span| span.lo);
    let joined = joined(alloc, spans.as_slice())?;
    Ok(Domain::new(joined))
}

/// Spans that ascend by their starts, with those joined that overlap or touch.
fn joined(alloc: Global, spans: &[Span]) -> Result<Vec<Span>, AllocError>
    requires ascend { AscendByStart spans.now }
    requires spans { All IsSpan spans.now }
    ensures domain { IfOk result (λ made. IsDomain made.items) }
    ensures values { IfOk result (λ made. (n : ℤ) → has_value made.items n ≡ has_value spans.now n) }
{
    let mut done = Vec::new(alloc);
    if spans.is_empty() {
        return Ok(done);
    }
    let mut last = spans[0];
    for i in 1..spans.len() {
        let span = spans[i];
        if span.lo > last.hi + 1 {
            done.push(last)?;
            last = span;
        }
        last.hi = last.hi.max(span.hi);
    }
    done.push(last)?;
    Ok(done)
}
