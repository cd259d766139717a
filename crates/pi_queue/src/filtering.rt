//! What the filter of a constraint leaves of the values that stand in a store.
ghost use Rattle.std.specs.Prelude.{◌≡◌, IfOk, length, map};
ghost use Rattle.pi_constraints.specs.Constraint.{AreItems, IsWithinLimits};
ghost use Rattle.pi_prop_spec.specs.Places.{places_of};
ghost use Rattle.pi_queue.specs.Standing.{standing_at};
ghost use Rattle.pi_queue.specs.Filtering.{IsFiltered};

use crate::changes::changed;
use crate::held_places::HeldPlaces;
use pi_constraints::{Constraint, Domain, Item, StoredDomains};
use pi_prop_filters::narrow;
use std::alloc::{AllocError, Global};

/// The domain that the filter of a constraint leaves at each place; None where it leaves what stands in the store.
pub(crate) fn filtered<S: StoredDomains>(
    alloc: Global,
    s: &S,
    constraint: &Constraint,
    roots: &[Item],
) -> Result<Vec<Option<Domain>>, AllocError>
    requires limits { IsWithinLimits constraint.now }
    requires count { length roots.now ≡ length (places_of constraint.now) }
    ensures count { IfOk result (λ told. length told.items ≡ length roots.now) }
    ensures filtered { IfOk result (λ told. AreItems roots.now →
        IsFiltered constraint.now (map (standing_at (S.seen s.now).now.state) roots.now) told.items) }
{
    let mut places = HeldPlaces::of(alloc, s, roots)?;
    narrow(alloc, constraint, &mut places)?;
    let told = changed(alloc, s, roots, &places)?;
    Ok(told)
}
