//! What the items of `element` have for its index and its value.
ghost use Rattle.std.specs.Prelude.{◌≡◌, ◌↔◌, ◌+◌, ◌≤◌, ◌^◌, IsTrue, IfOk, pos};
ghost use Rattle.pi_constraints.specs.Domain.{has_value};
ghost use Rattle.pi_prop_spec.specs.Places.{domain_at};
ghost use Rattle.pi_prop_filters.specs.Choices.{IsChosen, AreNumbers, AreValues, Adds};

use pi_constraints::Span;
use pi_prop_places::Places;
use std::alloc::{AllocError, Global};

/// The numbers of the index whose items share a value with the value's place, each as a span.
pub(crate) fn chosen_numbers<P: Places>(
    alloc: Global,
    places: &P,
    count: usize,
) -> Result<Vec<Span>, AllocError>
    requires few { count ≤ 2 ^ 20 }
    ensures { IfOk result (λ made. AreNumbers count (count + 1) (P.domains places.now) made.items) }
{
    let mut spans = Vec::new(alloc);
    for i in 1..count + 1 {
        if is_chosen(places, count, i) {
            let number = i as i64;
            spans.push(Span {
                lo: number,
                hi: number,
            })?;
        }
    }
    Ok(spans)
}

/// Whether the index has the number of an item, and the item shares a value with the value's place.
fn is_chosen<P: Places>(places: &P, count: usize, i: usize) -> bool
    requires few { count ≤ 2 ^ 20 }
    requires item { i ≤ count }
    ensures { IsTrue result ↔ IsChosen count (P.domains places.now) i }
{
    has_number(places, i) && places.shares(i, count + 1)
}

/// Whether the index has the number of an item.
fn has_number<P: Places>(places: &P, i: usize) -> bool
    ensures { result ≡ has_value (domain_at (P.domains places.now) 0) (pos i) }
{
    places.has(0, i as i128)
}

/// The spans of the items whose numbers the index has, but for items without a value between the ends of the value's place.
pub(crate) fn chosen_values<P: Places>(
    alloc: Global,
    places: &P,
    count: usize,
) -> Result<Vec<Span>, AllocError>
    requires few { count ≤ 2 ^ 20 }
    ensures { IfOk result (λ made. AreValues count (count + 1) (P.domains places.now) made.items) }
{
    let lo = places.least(count + 1);
    let hi = places.greatest(count + 1);
    let mut spans = Vec::new(alloc);
    for i in 1..count + 1 {
        if has_number(places, i) {
            push_item(places, i, lo, hi, &mut spans)?;
        }
    }
    Ok(spans)
}

/// Puts the spans of an item behind others, where they don't all lie below `lo` or above `hi`.
fn push_item<P: Places>(
    places: &P,
    i: usize,
    lo: i64,
    hi: i64,
    spans: &mut Vec<Span>,
) -> Result<(), AllocError>
    ensures { IfOk result (λ _. Adds lo hi (domain_at (P.domains places.now) i) spans.old.items spans.new.items) }
{
    if hi < places.least(i) {
        return Ok(());
    }
    if places.greatest(i) < lo {
        return Ok(());
    }
    places.push_spans(i, spans)?;
    Ok(())
}
