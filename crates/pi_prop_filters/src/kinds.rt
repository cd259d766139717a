//! The filter of each kind of constraint, over places.
ghost use Rattle.std.specs.Prelude.{◌≡◌, IfOk, length};
ghost use Rattle.pi_constraints.specs.Constraint.{IsWithinLimits, IsSumWithinLimits};
ghost use Rattle.pi_prop_spec.specs.Filter.{RuleKeeps};
ghost use Rattle.pi_prop_spec.specs.Places.{places_of};
ghost use Rattle.pi_prop_spec.specs.Sums.{SumKeeps};
ghost use Rattle.pi_prop_places.specs.Changes.{AreFiltered};

use crate::absolutes::filter_absolute;
use crate::different::filter_different;
use crate::distinct::filter_distinct;
use crate::element::filter_element;
use crate::products::filter_product;
use crate::reified::filter_reified;
use pi_constraints::{Constraint, LinTerm, Rel};
use pi_prop_places::{Places, filter_sum};
use std::alloc::{AllocError, Global};

/// Leaves each place of a constraint the values that the rule of its kind keeps, whatever variable it has.
pub fn filter_places<P: Places>(
    alloc: Global,
    constraint: &Constraint,
    places: &mut P,
) -> Result<(), AllocError>
    requires limits { IsWithinLimits constraint.now }
    requires count { length (P.domains places.old) ≡ length (places_of constraint.now) }
    ensures { IfOk result (λ _. AreFiltered (RuleKeeps constraint.now (P.domains places.old)) (P.domains places.old)
        (P.domains places.new)) }
{
    match constraint {
        Constraint::Linear {
            rel,
            terms,
            constant,
        } => filter_linear(alloc, places, *rel, terms.as_slice(), *constant),
        Constraint::Product { .. } => filter_product(alloc, places),
        Constraint::Absolute { .. } => filter_absolute(alloc, places),
        Constraint::Different(_) => filter_different(alloc, places),
        Constraint::Element { items, .. } => filter_element(alloc, places, items.len()),
        Constraint::Reified {
            rel,
            terms,
            constant,
            ..
        } => filter_reified(alloc, places, *rel, terms.as_slice(), *constant),
        Constraint::Distinct(_) => filter_distinct(alloc, places),
    }
}

/// Leaves each place of a sum the values that its filter keeps.
fn filter_linear<P: Places>(
    alloc: Global,
    places: &mut P,
    rel: Rel,
    terms: &[LinTerm],
    constant: i128,
) -> Result<(), AllocError>
    requires count { length (P.domains places.old) ≡ length terms.now }
    requires limits { IsSumWithinLimits terms.now constant }
    ensures { IfOk result (λ _. AreFiltered (SumKeeps rel terms.now constant (P.domains places.old)) (P.domains places.old)
        (P.domains places.new)) }
{
    filter_sum(alloc, places, 0, rel, terms, constant)?;
    Ok(())
}
