//! The events of one variable.
ghost use Rattle.std.specs.Prelude.{◌≡◌, ◌++◌, IfOk};
ghost use Rattle.std.specs.Option.{option_copied};
ghost use Rattle.pi_prop_spec.specs.Ends.{least_of, greatest_of};
ghost use Rattle.pi_settling.specs.Events.{variable_events, domain_events, ins_events, bound_events, excluded_events, same_ends};

use crate::losses::push_lost;
use pi_constraints::{Domain, Event, Events, Span, size};
use std::alloc::{AllocError, Global};

/// The most values of a domain whose lost values are told one by one. The number is own.
const MOST_TOLD: u64 = 65_536;

/// The events of variable `v`, which had the domain `old` and has `new`, and which is an integer, an atom or a compound now
/// where `bound_now` is true. A User's Guide to Picat, 'Action Rules'; the order is own. It looks at the spans of both
/// domains and at the values that were lost, not at those that are left.
pub fn events_of(
    alloc: Global,
    v: u64,
    old: Option<&Domain>,
    new: Option<&Domain>,
    bound_now: bool,
) -> Result<Events, AllocError>
    ensures { IfOk result (λ made. made ≡ variable_events v (option_copied old.entry) (option_copied new.entry) bound_now) }
{
    let mut events = started(alloc, v, bound_now)?;
    match old {
        None => Ok(events),
        Some(old) => match new {
            None => Ok(events),
            Some(new) => {
                push_bound(&mut events, v, old, new)?;
                push_excluded(&mut events, v, old, new)?;
                Ok(events)
            }
        },
    }
}

/// The event of a variable that is a term now which is no variable.
fn started(alloc: Global, v: u64, bound_now: bool) -> Result<Events, AllocError>
    ensures { IfOk result (λ made. made ≡ ins_events bound_now v) }
{
    let mut events = Events::new(alloc);
    if bound_now {
        events.push(Event::Ins(v))?;
        return Ok(events);
    }
    Ok(events)
}

/// Puts the event of a least or a greatest value that is another one behind others.
fn push_bound(events: &mut Events, v: u64, old: &Domain, new: &Domain) -> Result<(), AllocError>
    ensures { IfOk result (λ _. events.new ≡ events.old ++ bound_events v old.now new.now) }
{
    if have_same_ends(old, new) {
        return Ok(());
    }
    events.push(Event::Bound(v))?;
    Ok(())
}

/// Puts an event for each value that was lost behind others, ascending, where there were no more values than are told.
fn push_excluded(events: &mut Events, v: u64, old: &Domain, new: &Domain) -> Result<(), AllocError>
    ensures { IfOk result (λ _. events.new ≡ events.old ++ excluded_events v old.now new.now) }
{
    if size(old) > MOST_TOLD {
        return Ok(());
    }
    let ends = ends(old);
    push_lost(events, v, ends, old, new)?;
    Ok(())
}

/// Whether two domains have one least and one greatest value.
fn have_same_ends(d: &Domain, e: &Domain) -> bool
    ensures { result ≡ same_ends d.now e.now }
{
    let first = ends(d);
    let second = ends(e);
    first.lo == second.lo && first.hi == second.hi
}

/// From the least to the greatest value of a domain; from 0 to 0 where there is none.
fn ends(d: &Domain) -> Span
    ensures least { result.lo ≡ least_of d.now }
    ensures greatest { result.hi ≡ greatest_of d.now }
{
    let spans = d.spans();
    let Some(first) = spans.first() else {
        return Span { lo: 0, hi: 0 };
    };
    let Some(last) = spans.last() else {
        return Span { lo: 0, hi: 0 };
    };
    Span {
        lo: first.lo,
        hi: last.hi,
    }
}
