//! The values that a domain lacks.
ghost use Rattle.std.specs.Prelude.{◌≡◌, ◌++◌, pos, ◌+ℤ◌, ◌-ℤ◌, IfOk};
ghost use Rattle.pi_constraints.specs.Domain.{IsWithinBounds};
ghost use Rattle.pi_settling.specs.Values.{all_but, between};

use pi_constraints::{Domain, MAX_VALUE, Span};
use std::alloc::{AllocError, Global};

/// All values that a domain can have, without those of this one. It looks once at each span.
pub(crate) fn all_but(alloc: Global, domain: &Domain) -> Result<Domain, AllocError>
    ensures { IfOk result (λ made. made ≡ all_but domain.now) }
{
    let mut gaps = Vec::new(alloc);
    let mut least = -MAX_VALUE;
    let spans = domain.spans();
    for k in 0..spans.len() {
        least = push_gap(&mut gaps, least, spans[k])?;
    }
    push_between(&mut gaps, least, MAX_VALUE)?;
    Ok(Domain::new(gaps))
}

/// Puts what lies from `least` up to a span behind the others, and answers the first number behind the span.
fn push_gap(gaps: &mut Vec<Span>, least: i64, span: Span) -> Result<i64, AllocError>
    requires low { IsWithinBounds span.lo }
    requires high { IsWithinBounds span.hi }
    ensures next { IfOk result (λ next. next ≡ span.hi +ℤ pos 1) }
    ensures pushed { IfOk result (λ _. gaps.new.items ≡ gaps.old.items ++ between least (span.lo -ℤ pos 1)) }
{
    push_between(gaps, least, span.lo - 1)?;
    Ok(span.hi + 1)
}

/// Puts the span from one number to another behind the others, where the first isn't above the second.
fn push_between(spans: &mut Vec<Span>, lo: i64, hi: i64) -> Result<(), AllocError>
    ensures { IfOk result (λ _. spans.new.items ≡ spans.old.items ++ between lo hi) }
{
    if lo <= hi {
        spans.push(Span { lo, hi })?;
    }
    Ok(())
}
