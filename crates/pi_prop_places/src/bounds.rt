//! Cuts by what terms add at least and at most.
ghost use Rattle.std.specs.Prelude.{◌≡◌, ◌≢◌, ◌+◌, ◌≤◌, ◌^◌, ◌&&◌, IfOk, pos, ◌-ℤ◌, ◌*ℤ◌, neg_ℤ, nat_abs, length, drop};
ghost use Rattle.pi_constraints.specs.Domain.{IsDomain};
ghost use Rattle.pi_prop_spec.specs.Places.{domain_at};
ghost use Rattle.pi_prop_spec.specs.Sums.{least_part, least_of_all, negated};
ghost use Rattle.pi_prop_places.specs.Changes.{IsCutAt, AreCutFrom};
ghost use Rattle.pi_prop_places.specs.Reads.{AreSpansFrom};
ghost use Rattle.pi_prop_places.specs.Terms.{BothAreSmall, MayBeConstant, MayBeRest, AreCoefficients, side_passes, sides_keep, rest_with};

use crate::places::Places;
use crate::terms::{Extremes, Rests, cut_term, extremes_of};
use pi_constraints::LinTerm;
use std::alloc::{AllocError, Global};

/// The constants with which a sum, and its negative, isn't to be above 0. Where there is none, nothing is asked.
#[derive(Clone, Copy)]
pub(crate) struct Sides {
    pub(crate) above: Option<i128>,
    pub(crate) below: Option<i128>,
}

impl Sides {
    /// The sum with this constant.
    pub(crate) fn at_most(constant: i128) -> Sides
        requires { nat_abs constant ≤ 2 ^ 100 }
        ensures above { result.above ≡ Some constant }
        ensures below { result.below ≡ None }
        ensures narrow { MayBeConstant result.above × MayBeConstant result.below }
    {
        Sides {
            above: Some(constant),
            below: None,
        }
    }

    /// The sum with this constant, and its negative.
    pub(crate) fn equal(constant: i128) -> Sides
        requires { nat_abs constant ≤ 2 ^ 100 }
        ensures above { result.above ≡ Some constant }
        ensures below { result.below ≡ Some (neg_ℤ constant) }
        ensures narrow { MayBeConstant result.above × MayBeConstant result.below }
    {
        Sides {
            above: Some(constant),
            below: Some(-constant),
        }
    }

    /// The negative of the sum with this constant, and 1 more.
    pub(crate) fn above_zero(constant: i128) -> Sides
        requires { nat_abs constant ≤ 2 ^ 100 }
        ensures above { result.above ≡ None }
        ensures below { result.below ≡ Some (pos 1 -ℤ constant) }
        ensures narrow { MayBeConstant result.above × MayBeConstant result.below }
    {
        Sides {
            above: None,
            below: Some(1 - constant),
        }
    }
}

/// Leaves each place of a sum, from the place `first` on, the values that both sides ask for. It looks at the terms once to
/// add, and once to cut.
pub(crate) fn cut_terms<P: Places>(
    alloc: Global,
    places: &mut P,
    first: usize,
    terms: &[LinTerm],
    sides: Sides,
) -> Result<(), AllocError>
    requires first { first ≤ 1 }
    requires count { length (P.domains places.old) ≡ first + length terms.now }
    requires few { length terms.now ≤ 2 ^ 20 }
    requires coefficients { AreCoefficients terms.now }
    requires above { MayBeConstant sides.above }
    requires below { MayBeConstant sides.below }
    ensures { IfOk result (λ _. AreCutFrom first (length terms.now)
        (sides_keep sides.above sides.below terms.now (drop first (P.domains places.old))) (P.domains places.old)
        (P.domains places.new)) }
{
    let all = extremes(terms, places, first);
    for i in 0..terms.len() {
        let (coefficient, _) = terms[i];
        cut_one(alloc, places, first + i, coefficient, all, sides)?;
    }
    Ok(())
}

/// What terms add, for the values at the places from `first` on.
pub fn extremes<P: Places>(terms: &[LinTerm], places: &P, first: usize) -> Extremes
    requires first { first ≤ 1 }
    requires count { length (P.domains places.now) ≡ first + length terms.now }
    requires few { length terms.now ≤ 2 ^ 20 }
    requires coefficients { AreCoefficients terms.now }
    ensures least { result.least ≡ least_of_all terms.now (drop first (P.domains places.now)) }
    ensures opposite { result.opposite ≡ least_of_all (negated terms.now) (drop first (P.domains places.now)) }
    ensures small { BothAreSmall (2 ^ 116) result.least result.opposite }
    ensures spans { AreSpansFrom first (length terms.now) (P.domains places.now) }
{
    let mut all = Extremes {
        least: 0,
        opposite: 0,
    };
    for i in 0..terms.len() {
        let (coefficient, _) = terms[i];
        let part = extremes_at(coefficient, places, first + i);
        all.least += part.least;
        all.opposite += part.opposite;
    }
    all
}

/// What a term adds, for the values at its place.
pub fn extremes_at<P: Places>(coefficient: i128, places: &P, k: usize) -> Extremes
    requires { nat_abs coefficient ≤ 2 ^ 40 }
    ensures least { result.least ≡ least_part coefficient (domain_at (P.domains places.now) k) }
    ensures opposite { result.opposite ≡ least_part (neg_ℤ coefficient) (domain_at (P.domains places.now) k) }
    ensures small { BothAreSmall (2 ^ 96) result.least result.opposite }
    ensures spans { IsDomain (domain_at (P.domains places.now) k) }
{
    let lo = wide(places.least(k));
    let hi = wide(places.greatest(k));
    extremes_of(coefficient, lo, hi)
}

/// The same integer in 128 bits.
fn wide(n: i64) -> i128
    ensures { result ≡ n }
{
    i128::from(n)
}

/// Leaves the place of a term the values that both sides ask for, where all terms add so much.
fn cut_one<P: Places>(
    alloc: Global,
    places: &mut P,
    k: usize,
    coefficient: i128,
    all: Extremes,
    sides: Sides,
) -> Result<(), AllocError>
    requires coefficient { coefficient ≢ pos 0 }
    requires narrow { nat_abs coefficient ≤ 2 ^ 40 }
    requires small { BothAreSmall (2 ^ 116) all.least all.opposite }
    requires above { MayBeConstant sides.above }
    requires below { MayBeConstant sides.below }
    ensures { IfOk result (λ _. let d = domain_at (P.domains places.old) k in
        IsCutAt k (λ n. side_passes sides.above all.least (least_part coefficient d)
        (coefficient *ℤ n) && side_passes sides.below all.opposite (least_part (neg_ℤ coefficient) d) (neg_ℤ coefficient *ℤ n))
        (P.domains places.old) (P.domains places.new)) }
{
    let part = extremes_at(coefficient, places, k);
    let above = rest_of(sides.above, all.least, part.least);
    let below = rest_of(sides.below, all.opposite, part.opposite);
    cut_term(alloc, places, k, coefficient, Rests { above, below })?;
    Ok(())
}

/// A constant and what all terms but one add at least.
fn rest_of(constant: Option<i128>, all: i128, part: i128) -> Option<i128>
    requires constant { MayBeConstant constant }
    requires all { nat_abs all ≤ 2 ^ 116 }
    requires part { nat_abs part ≤ 2 ^ 96 }
    ensures is { result ≡ rest_with constant all part }
    ensures small { MayBeRest result }
{
    match constant {
        Some(constant) => Some(constant + (all - part)),
        None => None,
    }
}
