//! Places of one variable are left what all of them have.
ghost use Rattle.std.specs.Prelude.{◌≡◌, ◌∷◌, ◌++◌, [], IfOk, length};
ghost use Rattle.pi_constraints.specs.Constraint.{IsSum, IsWithinLimits};
ghost use Rattle.pi_constraints.specs.Domain.{has_value};
ghost use Rattle.pi_prop_spec.specs.Places.{domain_at, places_of, sum_places};
ghost use Rattle.pi_prop_places.specs.Changes.{IsCutAt};
ghost use Rattle.pi_prop_filters.specs.Variables.{AreMet, AreGathered, AreSpread, AreSettled};

use crate::apart::{are_apart, is_element_apart, is_truth_apart};
use crate::variables::roots_of;
use pi_constraints::{Constraint, Item, LinTerm};
use pi_prop_places::Places;
use std::alloc::{AllocError, Global};

/// Leaves each place of a constraint the values that all places of its variable have. The terms of a sum have different
/// variables, so there nothing is to be done.
pub(crate) fn meet_places<P: Places>(
    alloc: Global,
    constraint: &Constraint,
    places: &mut P,
) -> Result<(), AllocError>
    requires limits { IsWithinLimits constraint.now }
    requires count { length (P.domains places.old) ≡ length (places_of constraint.now) }
    ensures { IfOk result (λ _. AreMet (places_of constraint.now) (P.domains places.old) (P.domains places.new)) }
{
    match constraint {
        Constraint::Linear { .. } => Ok(()),
        Constraint::Product { z, x, y } => meet_items(alloc, &[*z, *x, *y], places),
        Constraint::Absolute { z, x } => meet_items(alloc, &[*z, *x], places),
        Constraint::Different(items) => meet_items(alloc, items.as_slice(), places),
        Constraint::Element {
            index,
            items,
            value,
        } => meet_element(alloc, *index, items.as_slice(), *value, places),
        Constraint::Reified { truth, terms, .. } => {
            meet_reified(alloc, *truth, terms.as_slice(), places)
        }
        Constraint::Distinct(items) => meet_items(alloc, items.as_slice(), places),
    }
}

/// The same of the places of `element`.
fn meet_element<P: Places>(
    alloc: Global,
    index: Item,
    items: &[Item],
    value: Item,
    places: &mut P,
) -> Result<(), AllocError>
    requires { length (P.domains places.old) ≡ length (index ∷ (items.now ++ value ∷ [])) }
    ensures { IfOk result (λ _. AreMet (index ∷ (items.now ++ value ∷ [])) (P.domains places.old) (P.domains places.new)) }
{
    if is_element_apart(index, items, value) {
        return Ok(());
    }
    let mut all = Vec::new(alloc);
    all.push(index)?;
    all.extend_from_slice(items)?;
    all.push(value)?;
    meet_items(alloc, all.as_slice(), places)?;
    Ok(())
}

/// The same of the places of a reified sum.
fn meet_reified<P: Places>(
    alloc: Global,
    truth: Item,
    terms: &[LinTerm],
    places: &mut P,
) -> Result<(), AllocError>
    requires count { length (P.domains places.old) ≡ length (truth ∷ sum_places terms.now) }
    requires sum { IsSum 0 terms.now }
    ensures { IfOk result (λ _. AreMet (truth ∷ sum_places terms.now) (P.domains places.old) (P.domains places.new)) }
{
    if is_truth_apart(truth, terms) {
        return Ok(());
    }
    let mut all = Vec::new(alloc);
    all.push(truth)?;
    for i in 0..terms.len() {
        let (_, variable) = terms[i];
        all.push(Item::Var(variable))?;
    }
    meet_items(alloc, all.as_slice(), places)?;
    Ok(())
}

/// Leaves each place the values that all places of its variable have. Where two places may have one variable, the first place of
/// a variable takes what all of them have, and then each takes what that one has.
fn meet_items<P: Places>(alloc: Global, items: &[Item], places: &mut P) -> Result<(), AllocError>
    requires { length (P.domains places.old) ≡ length items.now }
    ensures { IfOk result (λ _. AreMet items.now (P.domains places.old) (P.domains places.new)) }
{
    if are_apart(items) {
        return Ok(());
    }
    let roots = roots_of(alloc, items)?;
    gather(alloc, places, roots.as_slice())?;
    spread(alloc, places, roots.as_slice())?;
    Ok(())
}

/// Leaves each place that stands for others the values that all of these have.
fn gather<P: Places>(alloc: Global, places: &mut P, roots: &[usize]) -> Result<(), AllocError>
    requires { AreSettled roots.now }
    ensures { IfOk result (λ _. AreGathered (length roots.now) roots.now (P.domains places.old) (P.domains places.new)) }
{
    for k in 0..roots.len() {
        keep_shared(alloc, places, roots[k], k)?;
    }
    Ok(())
}

/// Leaves each place the values that the place has that stands for it.
fn spread<P: Places>(alloc: Global, places: &mut P, roots: &[usize]) -> Result<(), AllocError>
    requires { AreSettled roots.now }
    ensures { IfOk result (λ _. AreSpread (length roots.now) roots.now (P.domains places.old) (P.domains places.new)) }
{
    for k in 0..roots.len() {
        keep_shared(alloc, places, k, roots[k])?;
    }
    Ok(())
}

/// Leaves place `k` the values that place `j` has too.
fn keep_shared<P: Places>(
    alloc: Global,
    places: &mut P,
    k: usize,
    j: usize,
) -> Result<(), AllocError>
    ensures { IfOk result (λ _. IsCutAt k (has_value (domain_at (P.domains places.old) j)) (P.domains places.old) (P.domains places.new)) }
{
    if j == k {
        return Ok(());
    }
    let domain = places.domain(alloc, j)?;
    places.keep(alloc, k, &domain)?;
    Ok(())
}
