//! Filters of sums, over places.
ghost use Rattle.std.specs.Prelude.{◌≡◌, ◌+◌, ◌≤◌, IfOk, pos, ◌-ℤ◌, length, drop};
ghost use Rattle.pi_constraints.specs.Constraint.{IsSumWithinLimits};
ghost use Rattle.pi_prop_spec.specs.Sums.{negated, AtMostKeeps, EqualKeeps, UnequalKeeps, SumKeeps, OppositeKeeps};
ghost use Rattle.pi_prop_places.specs.Changes.{AreFilteredFrom};

use crate::bounds::{Sides, cut_terms};
use crate::places::Places;
use crate::roots::remove_roots;
use pi_constraints::{LinTerm, Rel};
use std::alloc::{AllocError, Global};

/// Leaves the places of a sum, from the place `first` on, the values that the filter of the sum keeps.
pub fn filter_sum<P: Places>(
    alloc: Global,
    places: &mut P,
    first: usize,
    rel: Rel,
    terms: &[LinTerm],
    constant: i128,
) -> Result<(), AllocError>
    requires first { first ≤ 1 }
    requires count { length (P.domains places.old) ≡ first + length terms.now }
    requires limits { IsSumWithinLimits terms.now constant }
    ensures { IfOk result (λ _. AreFilteredFrom first (SumKeeps rel terms.now constant (drop first (P.domains places.old)))
        (P.domains places.old) (P.domains places.new)) }
{
    match rel {
        Rel::AtMost => cut_at_most(alloc, places, first, terms, constant),
        Rel::Equal => cut_equal(alloc, places, first, terms, constant),
        Rel::Unequal => cut_unequal(alloc, places, first, terms, constant),
    }
}

/// Leaves the places of a sum, from the place `first` on, the values that the filter of its opposite keeps: of `sum <= 0`
/// that is `1 - sum <= 0`, and equal and unequal are each other's.
pub fn filter_opposite<P: Places>(
    alloc: Global,
    places: &mut P,
    first: usize,
    rel: Rel,
    terms: &[LinTerm],
    constant: i128,
) -> Result<(), AllocError>
    requires first { first ≤ 1 }
    requires count { length (P.domains places.old) ≡ first + length terms.now }
    requires limits { IsSumWithinLimits terms.now constant }
    ensures { IfOk result (λ _. AreFilteredFrom first (OppositeKeeps rel terms.now constant (drop first (P.domains places.old)))
        (P.domains places.old) (P.domains places.new)) }
{
    match rel {
        Rel::AtMost => cut_above_zero(alloc, places, first, terms, constant),
        Rel::Equal => cut_unequal(alloc, places, first, terms, constant),
        Rel::Unequal => cut_equal(alloc, places, first, terms, constant),
    }
}

/// Leaves the places of a sum the values with which it can be at most 0.
fn cut_at_most<P: Places>(
    alloc: Global,
    places: &mut P,
    first: usize,
    terms: &[LinTerm],
    constant: i128,
) -> Result<(), AllocError>
    requires first { first ≤ 1 }
    requires count { length (P.domains places.old) ≡ first + length terms.now }
    requires limits { IsSumWithinLimits terms.now constant }
    ensures { IfOk result (λ _. AreFilteredFrom first (AtMostKeeps terms.now constant (drop first (P.domains places.old)))
        (P.domains places.old) (P.domains places.new)) }
{
    let sides = Sides::at_most(constant);
    cut_terms(alloc, places, first, terms, sides)?;
    Ok(())
}

/// Leaves the places of a sum the values with which it can be at least 1.
fn cut_above_zero<P: Places>(
    alloc: Global,
    places: &mut P,
    first: usize,
    terms: &[LinTerm],
    constant: i128,
) -> Result<(), AllocError>
    requires first { first ≤ 1 }
    requires count { length (P.domains places.old) ≡ first + length terms.now }
    requires limits { IsSumWithinLimits terms.now constant }
    ensures { IfOk result (λ _. AreFilteredFrom first
        (AtMostKeeps (negated terms.now) (pos 1 -ℤ constant) (drop first (P.domains places.old))) (P.domains places.old)
        (P.domains places.new)) }
{
    let sides = Sides::above_zero(constant);
    cut_terms(alloc, places, first, terms, sides)?;
    Ok(())
}

/// Leaves the places of a sum the values with which it can be at most 0 and at least 0.
fn cut_equal<P: Places>(
    alloc: Global,
    places: &mut P,
    first: usize,
    terms: &[LinTerm],
    constant: i128,
) -> Result<(), AllocError>
    requires first { first ≤ 1 }
    requires count { length (P.domains places.old) ≡ first + length terms.now }
    requires limits { IsSumWithinLimits terms.now constant }
    ensures { IfOk result (λ _. AreFilteredFrom first (EqualKeeps terms.now constant (drop first (P.domains places.old)))
        (P.domains places.old) (P.domains places.new)) }
{
    let sides = Sides::equal(constant);
    cut_terms(alloc, places, first, terms, sides)?;
    Ok(())
}

/// Takes from the places of a sum the value that makes it 0.
fn cut_unequal<P: Places>(
    alloc: Global,
    places: &mut P,
    first: usize,
    terms: &[LinTerm],
    constant: i128,
) -> Result<(), AllocError>
    requires first { first ≤ 1 }
    requires count { length (P.domains places.old) ≡ first + length terms.now }
    requires limits { IsSumWithinLimits terms.now constant }
    ensures { IfOk result (λ _. AreFilteredFrom first (UnequalKeeps terms.now constant (drop first (P.domains places.old)))
        (P.domains places.old) (P.domains places.new)) }
{
    remove_roots(alloc, places, first, terms, constant)?;
    Ok(())
}
