//! The filter of a reified sum: the truth at place 0, and the terms behind it.
ghost use Rattle.std.specs.Prelude.{◌≡◌, ◌+◌, IfOk, cond, length, pos};
ghost use Rattle.pi_constraints.specs.Constraint.{IsSumWithinLimits};
ghost use Rattle.pi_prop_spec.specs.Reified.{ReifiedKeeps};
ghost use Rattle.pi_prop_places.specs.Changes.{IsKeptAt, AreFiltered, AreFilteredFrom};
ghost use Rattle.pi_prop_filters.specs.Terms.{TermKeeps, TruthKeeps};

use crate::leaves::{can_fail, can_hold};
use pi_constraints::{LinTerm, Rel};
use pi_prop_places::{Places, filter_opposite, filter_sum, keep_between};
use std::alloc::{AllocError, Global};

/// Leaves the places of a reified sum, its truth at 0 and its terms behind it, the values that its filter keeps. It sees
/// what the truth keeps before it takes a value from a place, and looks for it only where the truth has the value in question.
pub fn filter_reified<P: Places>(
    alloc: Global,
    places: &mut P,
    rel: Rel,
    terms: &[LinTerm],
    constant: i128,
) -> Result<(), AllocError>
    requires count { length (P.domains places.old) ≡ 1 + length terms.now }
    requires limits { IsSumWithinLimits terms.now constant }
    ensures { IfOk result (λ _. AreFiltered (ReifiedKeeps rel terms.now constant (P.domains places.old)) (P.domains places.old)
        (P.domains places.new)) }
{
    let holds = can_hold(places, rel, terms, constant);
    let fails = can_fail(places, rel, terms, constant);
    filter_terms(alloc, places, rel, terms, constant)?;
    keep_truth(alloc, places, holds, fails)?;
    Ok(())
}

/// Leaves the terms what the sum's filter keeps where the truth is fixed to 1, and what that of its opposite keeps where it
/// is fixed to 0.
fn filter_terms<P: Places>(
    alloc: Global,
    places: &mut P,
    rel: Rel,
    terms: &[LinTerm],
    constant: i128,
) -> Result<(), AllocError>
    requires count { length (P.domains places.old) ≡ 1 + length terms.now }
    requires limits { IsSumWithinLimits terms.now constant }
    ensures { IfOk result (λ _. AreFilteredFrom 1 (TermKeeps rel terms.now constant (P.domains places.old)) (P.domains places.old)
        (P.domains places.new)) }
{
    let truth = places.least(0);
    if truth != places.greatest(0) {
        return Ok(());
    }
    if truth == 1 {
        filter_sum(alloc, places, 1, rel, terms, constant)?;
        return Ok(());
    }
    if truth == 0 {
        filter_opposite(alloc, places, 1, rel, terms, constant)?;
        return Ok(());
    }
    Ok(())
}

/// Leaves the truth 1 where the sum can hold, and 0 where it can fail.
fn keep_truth<P: Places>(
    alloc: Global,
    places: &mut P,
    holds: bool,
    fails: bool,
) -> Result<(), AllocError>
    ensures { IfOk result (λ _. IsKeptAt 0 (TruthKeeps holds fails) (P.domains places.old) (P.domains places.new)) }
{
    keep_between(alloc, places, 0, least_truth(fails), greatest_truth(holds))?;
    Ok(())
}

/// The least truth that is left, where the sum can fail or not.
fn least_truth(fails: bool) -> i128
    ensures { result ≡ cond fails (pos 0) (pos 1) }
{
    if fails { 0 } else { 1 }
}

/// The greatest truth that is left, where the sum can hold or not.
fn greatest_truth(holds: bool) -> i128
    ensures { result ≡ cond holds (pos 1) (pos 0) }
{
    if holds { 1 } else { 0 }
}
