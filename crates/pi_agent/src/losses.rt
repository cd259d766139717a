//! Values that a domain lost.
ghost use Rattle.std.specs.Prelude.{◌≡◌, ◌++◌, IfOk, suc, ◌≤ℤ◌, ◌&&◌, int_lt};
ghost use Rattle.std.specs.Int.{int_gap};
ghost use Rattle.pi_constraints.specs.declared.domain.TheConstants.{MAX_VALUE};
ghost use Rattle.pi_constraints.specs.Domain.{IsDomain, IsWithinBounds};
ghost use Rattle.pi_settling.specs.Events.{lost_values};
ghost use Rattle.pi_agent.specs.Lost.{excluded, lost_from, ShowsEnd};

use pi_constraints::{Domain, Event, Events, Span};
use std::alloc::AllocError;

/// Puts an event for each value that `old` has and `new` doesn't behind others, ascending. A value that lies strictly
/// between `ends` is an inner one.
pub(crate) fn push_lost(
    events: &mut Events,
    v: u64,
    ends: Span,
    old: &Domain,
    new: &Domain,
) -> Result<(), AllocError>
    ensures { IfOk result (λ _. events.new ≡ events.old ++ excluded v ends (lost_values old.now new.now)) }
{
    let spans = old.spans();
    for i in 0..spans.len() {
        push_lost_between(events, v, ends, spans[i], new)?;
    }
    Ok(())
}

/// The same of the values of one span.
fn push_lost_between(
    events: &mut Events,
    v: u64,
    ends: Span,
    span: Span,
    new: &Domain,
) -> Result<(), AllocError>
    requires low { IsWithinBounds span.lo }
    requires high { IsWithinBounds span.hi }
    requires ordered { span.lo ≤ℤ span.hi }
    ensures { IfOk result (λ _. events.new ≡ events.old ++ excluded v ends (lost_from new.now span.lo (suc (int_gap span.lo span.hi)))) }
{
    let mut from = span.lo;
    while from <= span.hi {
        match end_of_values(new, from) {
            Some(end) => from = end + 1,
            None => {
                let inner = is_between(ends, from);
                events.push(Event::Excluded(v, from, inner))?;
                from += 1;
            }
        }
    }
    Ok(())
}

/// Whether a value lies strictly between two ends.
fn is_between(ends: Span, n: i64) -> bool
    ensures { result ≡ (int_lt ends.lo n && int_lt n ends.hi) }
{
    ends.lo < n && n < ends.hi
}

/// Where the values end that a domain has from `n` on; None where `n` isn't one. It looks at no more spans than their
/// number has binary digits.
fn end_of_values(d: &Domain, n: i64) -> Option<i64>
    ensures { ShowsEnd d.now n result }
{
    let spans = d.spans();
    let at = spans.partition_point(|span| span.hi < n);
    if at >= spans.len() {
        return None;
    }
    let span = spans[at];
    if span.lo <= n {
        return Some(span.hi);
    }
    None
}
