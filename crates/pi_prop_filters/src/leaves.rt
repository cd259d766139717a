//! Whether the filter of a sum leaves each of its places a value. No place is changed, and no memory is taken.
ghost use Rattle.std.specs.Prelude.{◌≡◌, ◌≢◌, ◌↔◌, ℕ, ◌+◌, ◌<◌, ◌≤◌, ◌^◌, IsTrue, length, drop, pos, ◌+ℤ◌, ◌-ℤ◌, neg_ℤ, nat_abs};
ghost use Rattle.pi_constraints.specs.Constraint.{IsSumWithinLimits};
ghost use Rattle.pi_constraints.specs.Domain.{has_value};
ghost use Rattle.pi_prop_spec.specs.Ends.{IsFixed};
ghost use Rattle.pi_prop_spec.specs.Places.{domain_at, HaveValues};
ghost use Rattle.pi_prop_spec.specs.Sums.{least_part, negated, AtMostKeeps, EqualKeeps, UnequalKeeps, SumKeeps, OppositeKeeps};
ghost use Rattle.pi_prop_spec.specs.Reified.{LeavesValues, of_terms};
ghost use Rattle.pi_prop_places.specs.Reads.{HasValueWith};
ghost use Rattle.pi_prop_places.specs.Terms.{BothAreSmall};

use pi_constraints::{LinTerm, Rel};
use pi_prop_places::{Extremes, Places, extremes, extremes_at, has_with, have_values, is_fixed};

/// Whether the truth has the value 1, and the sum's filter leaves each term a value.
pub(crate) fn can_hold<P: Places>(places: &P, rel: Rel, terms: &[LinTerm], constant: i128) -> bool
    requires count { length (P.domains places.now) ≡ 1 + length terms.now }
    requires limits { IsSumWithinLimits terms.now constant }
    ensures { let ds = P.domains places.now in IsTrue result ↔
        (IsTrue (has_value (domain_at ds 0) (pos 1)) × LeavesValues (SumKeeps rel terms.now constant (of_terms ds)) (of_terms ds)) }
{
    if !places.has(0, 1) {
        return false;
    }
    if !have_values(places) {
        return false;
    }
    leaves_sum(places, rel, terms, constant)
}

/// Whether the truth has the value 0, and the filter of the sum's opposite leaves each term a value.
pub(crate) fn can_fail<P: Places>(places: &P, rel: Rel, terms: &[LinTerm], constant: i128) -> bool
    requires count { length (P.domains places.now) ≡ 1 + length terms.now }
    requires limits { IsSumWithinLimits terms.now constant }
    ensures { let ds = P.domains places.now in IsTrue result ↔
        (IsTrue (has_value (domain_at ds 0) (pos 0)) ×
        LeavesValues (OppositeKeeps rel terms.now constant (of_terms ds)) (of_terms ds)) }
{
    if !places.has(0, 0) {
        return false;
    }
    if !have_values(places) {
        return false;
    }
    leaves_opposite(places, rel, terms, constant)
}

/// Whether the filter of the sum of the terms, behind place 0, leaves each of them a value.
fn leaves_sum<P: Places>(places: &P, rel: Rel, terms: &[LinTerm], constant: i128) -> bool
    requires count { length (P.domains places.now) ≡ 1 + length terms.now }
    requires limits { IsSumWithinLimits terms.now constant }
    requires values { HaveValues (P.domains places.now) }
    ensures { let ds = of_terms (P.domains places.now) in IsTrue result ↔ LeavesValues (SumKeeps rel terms.now constant ds) ds }
{
    match rel {
        Rel::Equal => leaves_equal(places, terms, constant),
        Rel::Unequal => leaves_unequal(places, terms, constant),
        Rel::AtMost => leaves_at_most(places, terms, constant),
    }
}

/// Whether the filter of the opposite of the sum of the terms, behind place 0, leaves each of them a value.
fn leaves_opposite<P: Places>(places: &P, rel: Rel, terms: &[LinTerm], constant: i128) -> bool
    requires count { length (P.domains places.now) ≡ 1 + length terms.now }
    requires limits { IsSumWithinLimits terms.now constant }
    requires values { HaveValues (P.domains places.now) }
    ensures { let ds = of_terms (P.domains places.now) in IsTrue result ↔ LeavesValues (OppositeKeeps rel terms.now constant ds) ds }
{
    match rel {
        Rel::Equal => leaves_unequal(places, terms, constant),
        Rel::Unequal => leaves_equal(places, terms, constant),
        Rel::AtMost => leaves_above_zero(places, terms, constant),
    }
}

/// Of a sum at most 0: where the least that it can be isn't above 0.
fn leaves_at_most<P: Places>(places: &P, terms: &[LinTerm], constant: i128) -> bool
    requires count { length (P.domains places.now) ≡ 1 + length terms.now }
    requires limits { IsSumWithinLimits terms.now constant }
    requires values { HaveValues (P.domains places.now) }
    ensures { let ds = of_terms (P.domains places.now) in IsTrue result ↔ LeavesValues (AtMostKeeps terms.now constant ds) ds }
{
    let all = extremes(terms, places, 1);
    constant + all.least <= 0
}

/// Of a sum above 0: where the least that its negative can be is below 0.
fn leaves_above_zero<P: Places>(places: &P, terms: &[LinTerm], constant: i128) -> bool
    requires count { length (P.domains places.now) ≡ 1 + length terms.now }
    requires limits { IsSumWithinLimits terms.now constant }
    requires values { HaveValues (P.domains places.now) }
    ensures { let ds = of_terms (P.domains places.now) in
        IsTrue result ↔ LeavesValues (AtMostKeeps (negated terms.now) (pos 1 -ℤ constant) ds) ds }
{
    let all = extremes(terms, places, 1);
    1 - constant + all.opposite <= 0
}

/// Of a sum other than 0: where a place isn't fixed, or the sum of the fixed places isn't 0.
fn leaves_unequal<P: Places>(places: &P, terms: &[LinTerm], constant: i128) -> bool
    requires count { length (P.domains places.now) ≡ 1 + length terms.now }
    requires limits { IsSumWithinLimits terms.now constant }
    requires values { HaveValues (P.domains places.now) }
    ensures { let ds = of_terms (P.domains places.now) in IsTrue result ↔ LeavesValues (UnequalKeeps terms.now constant ds) ds }
{
    let all = extremes(terms, places, 1);
    if constant + all.least != 0 {
        return true;
    }
    !are_fixed(places, terms.len())
}

/// Whether so many places, behind place 0, are fixed.
fn are_fixed<P: Places>(places: &P, count: usize) -> bool
    requires few { count ≤ 2 ^ 20 }
    ensures { IsTrue result ↔ ((k : ℕ) → k < count → IsFixed (domain_at (of_terms (P.domains places.now)) k)) }
{
    for i in 0..count {
        if !is_fixed(places, 1 + i) {
            return false;
        }
    }
    true
}

/// Of a sum equal to 0: where each place has a value with which neither the sum nor its negative has to be above 0.
fn leaves_equal<P: Places>(places: &P, terms: &[LinTerm], constant: i128) -> bool
    requires count { length (P.domains places.now) ≡ 1 + length terms.now }
    requires limits { IsSumWithinLimits terms.now constant }
    requires values { HaveValues (P.domains places.now) }
    ensures { let ds = of_terms (P.domains places.now) in IsTrue result ↔ LeavesValues (EqualKeeps terms.now constant ds) ds }
{
    let all = extremes(terms, places, 1);
    for i in 0..terms.len() {
        let (coefficient, _) = terms[i];
        if !has_equal(places, 1 + i, coefficient, all, constant) {
            return false;
        }
    }
    true
}

/// Whether the place of a term has a value with which neither the sum nor its negative has to be above 0, where all terms add
/// so much.
fn has_equal<P: Places>(
    places: &P,
    k: usize,
    coefficient: i128,
    all: Extremes,
    constant: i128,
) -> bool
    requires coefficient { coefficient ≢ pos 0 }
    requires narrow { nat_abs coefficient ≤ 2 ^ 40 }
    requires small { BothAreSmall (2 ^ 116) all.least all.opposite }
    requires constant { nat_abs constant ≤ 2 ^ 100 }
    ensures { let d = domain_at (P.domains places.now) k in
        IsTrue result ↔ HasValueWith d coefficient (constant +ℤ (all.least -ℤ least_part coefficient d))
        (neg_ℤ constant +ℤ (all.opposite -ℤ least_part (neg_ℤ coefficient) d)) }
{
    let part = extremes_at(coefficient, places, k);
    let above = constant + (all.least - part.least);
    let below = -constant + (all.opposite - part.opposite);
    has_with(places, k, coefficient, above, below)
}
