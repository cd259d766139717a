//! The values that two domains share.
ghost use Rattle.std.specs.Prelude.{◌≡◌, ◌++◌, ◌&&◌, ℤ, IfOk, is_ok, if◌then◌else◌};
ghost use Rattle.pi_constraints.specs.Domain.{IsDomain, has_value, overlap, common};

use crate::domain::{Domain, Span};
use std::alloc::{AllocError, Global};

/// The values that two domains share. It looks once at each span.
pub fn meet(alloc: Global, d: &Domain, e: &Domain) -> Result<Domain, AllocError>
    ensures values { IfOk result (λ made. (n : ℤ) → has_value made n ≡ (has_value d.now n && has_value e.now n)) }
    ensures common { IfOk result (λ made. made ≡ common d.now e.now) }
{
    kept_values(alloc, d, e)
}

/// The values of `d` that are kept.
pub(crate) fn kept_values(alloc: Global, d: &Domain, kept: &Domain) -> Result<Domain, AllocError>
    ensures domain { IsDomain d.now }
    ensures kept { IsDomain kept.now }
    ensures made { IfOk result (λ made. IsDomain made) }
    ensures values { IfOk result (λ made. (n : ℤ) → has_value made n ≡ (has_value d.now n && has_value kept.now n)) }
{
    let spans = shared_spans(alloc, d.spans(), kept.spans())?;
    Ok(Domain::new(spans))
}

fn shared_spans(alloc: Global, d: &[Span], e: &[Span]) -> Result<Vec<Span>, AllocError>
    requires first { IsDomain d.now }
    requires second { IsDomain e.now }
    ensures domain { IfOk result (λ made. IsDomain made.items) }
    ensures values { IfOk result (λ made. (n : ℤ) → has_value made.items n ≡ (has_value d.now n && has_value e.now n)) }
{
    let mut shared = Vec::new(alloc);
    let (mut i, mut j) = (0, 0);
    while i < d.len() && j < e.len() {
        push_overlap(&mut shared, d[i], e[j])?;
        if d[i].hi <= e[j].hi {
            i += 1;
        } else {
            j += 1;
        }
    }
    Ok(shared)
}

/// Puts the span that two spans share behind the others, where they share one.
fn push_overlap(spans: &mut Vec<Span>, a: Span, b: Span) -> Result<(), AllocError>
    ensures ok { IfOk result (λ _. spans.new.items ≡ spans.old.items ++ overlap a b) }
{
    let (lo, hi) = (a.lo.max(b.lo), a.hi.min(b.hi));
    if lo <= hi {
        spans.push(Span { lo, hi })?;
    }
    Ok(())
}
