//! What became of places that were read in a store.
ghost use Rattle.std.specs.Prelude.{◌≡◌, IfOk, length, map, unwrap_or};
ghost use Rattle.pi_constraints.specs.Constraint.{IsItem, AreItems};
ghost use Rattle.pi_queue.specs.Standing.{standing_at};
ghost use Rattle.pi_queue.specs.Changes.{AreTold};

use crate::asks::are_same;
use crate::held::Held;
use crate::held_places::HeldPlaces;
use pi_constraints::{Domain, Item, StoredDomains};
use std::alloc::{AllocError, Global};

/// The domain that is left at each place; None where it has the spans that stand in the store. It wants memory for what changed,
/// and for the list.
pub fn changed<S: StoredDomains>(
    alloc: Global,
    store: &S,
    items: &[Item],
    places: &HeldPlaces<S>,
) -> Result<Vec<Option<Domain>>, AllocError>
    requires { length items.now ≡ length places.now.held.items }
    ensures count { IfOk result (λ made. length made.items ≡ length items.now) }
    ensures told { IfOk result (λ made. AreItems items.now →
        AreTold (map (standing_at (S.seen store.now).now.state) items.now) made.items places.now.held.items) }
{
    let told = changes(alloc, store, items, places.held.as_slice())?;
    Ok(told)
}

/// The same of the values at places.
fn changes<S: StoredDomains>(
    alloc: Global,
    store: &S,
    items: &[Item],
    held: &[Held<S>],
) -> Result<Vec<Option<Domain>>, AllocError>
    requires { length items.now ≡ length held.now }
    ensures count { IfOk result (λ made. length made.items ≡ length items.now) }
    ensures told { IfOk result (λ made. AreItems items.now →
        AreTold (map (standing_at (S.seen store.now).now.state) items.now) made.items held.now) }
{
    let mut told = Vec::new(alloc);
    for k in 0..items.len() {
        let one = change(alloc, store, items[k], &held[k])?;
        told.push(one)?;
    }
    Ok(told)
}

/// The same of one place.
fn change<S: StoredDomains>(
    alloc: Global,
    store: &S,
    item: Item,
    held: &Held<S>,
) -> Result<Option<Domain>, AllocError>
    ensures { IfOk result (λ made. IsItem item → held.now ≡ unwrap_or made (standing_at (S.seen store.now).now.state item)) }
{
    let stood = Held::of(store, item);
    if are_same(held, &stood) {
        return Ok(None);
    }
    let own = held.copy(alloc)?;
    Ok(Some(own))
}
