//! What the filter of a constraint leaves, taken where the places stand.
ghost use Rattle.std.specs.Prelude.{◌≡◌, IfOk, length};
ghost use Rattle.pi_constraints.specs.Constraint.{IsWithinLimits};
ghost use Rattle.pi_prop_spec.specs.Places.{places_of};
ghost use Rattle.pi_prop_places.specs.Changes.{AreFiltered};
ghost use Rattle.pi_prop_filters.specs.Left.{AreLeft, DistinctLeaves};

use crate::kinds::filter_places;
use crate::meeting::meet_places;
use pi_constraints::Constraint;
use pi_prop_places::{Places, have_values, take_all};
use std::alloc::{AllocError, Global};

/// Leaves each place of a constraint the values that its filter leaves: none at all where a place has none, and at places of one
/// variable what all of them keep.
pub fn narrow<P: Places>(
    alloc: Global,
    constraint: &Constraint,
    places: &mut P,
) -> Result<(), AllocError>
    requires limits { IsWithinLimits constraint.now }
    requires count { length (P.domains places.old) ≡ length (places_of constraint.now) }
    ensures { IfOk result (λ _. AreLeft constraint.now (P.domains places.old) (P.domains places.new)) }
{
    if !have_values(places) {
        take_all(alloc, places)?;
        return Ok(());
    }
    filter_places(alloc, constraint, places)?;
    meet_places(alloc, constraint, places)?;
    Ok(())
}

/// The same of places that have no constraint, each by itself, and of the rule of `Distinct`.
pub(crate) fn narrow_distinct<P: Places>(alloc: Global, places: &mut P) -> Result<(), AllocError>
    ensures { IfOk result (λ _. AreFiltered (DistinctLeaves (P.domains places.old)) (P.domains places.old) (P.domains places.new)) }
{
    if !have_values(places) {
        take_all(alloc, places)?;
        return Ok(());
    }
    crate::distinct::filter_distinct(alloc, places)?;
    Ok(())
}
