//! The filter of `element`: the index at place 0, item i at place i, and the value behind the items.
ghost use Rattle.std.specs.Prelude.{◌≡◌, ◌+◌, ◌≤◌, ◌^◌, IfOk, length};
ghost use Rattle.pi_prop_spec.specs.Rules.{ElementKeeps};
ghost use Rattle.pi_prop_places.specs.Changes.{AreFiltered};
ghost use Rattle.pi_prop_filters.specs.Choices.{ItemKeeps};

use crate::items::{chosen_numbers, chosen_values};
use crate::joins::domain_of;
use pi_prop_places::Places;
use std::alloc::{AllocError, Global};

/// Leaves the places of `element` with so many items the values that its filter keeps. It reads what the index and the value
/// keep before it takes a value from a place.
pub fn filter_element<P: Places>(
    alloc: Global,
    places: &mut P,
    count: usize,
) -> Result<(), AllocError>
    requires places { length (P.domains places.old) ≡ count + 2 }
    requires few { count ≤ 2 ^ 20 }
    ensures { IfOk result (λ _. AreFiltered (ElementKeeps count (P.domains places.old)) (P.domains places.old) (P.domains places.new)) }
{
    let numbers = chosen_numbers(alloc, places, count)?;
    let numbers = domain_of(alloc, numbers)?;
    let values = chosen_values(alloc, places, count)?;
    let values = domain_of(alloc, values)?;
    keep_item(alloc, places, count)?;
    places.keep(alloc, 0, &numbers)?;
    places.keep(alloc, count + 1, &values)?;
    Ok(())
}

/// Leaves an item, where the index is fixed to its number, what the value's place has.
fn keep_item<P: Places>(alloc: Global, places: &mut P, count: usize) -> Result<(), AllocError>
    requires few { count ≤ 2 ^ 20 }
    ensures { IfOk result (λ _. AreFiltered (ItemKeeps count (P.domains places.old)) (P.domains places.old) (P.domains places.new)) }
{
    let number = places.least(0);
    if number != places.greatest(0) {
        return Ok(());
    }
    if number < 1 {
        return Ok(());
    }
    let item = number as usize;
    if item > count {
        return Ok(());
    }
    let value = places.domain(alloc, count + 1)?;
    places.keep(alloc, item, &value)?;
    Ok(())
}
