//! A term of a sum: what it adds, and how it cuts its place.
ghost use Rattle.std.specs.Prelude.{◌≡◌, ◌≢◌, ◌↔◌, ◌≤◌, ◌^◌, ◌&&◌, IfOk, IsTrue, pos, ◌+ℤ◌, ◌*ℤ◌, neg_ℤ, int_le, nat_abs};
ghost use Rattle.std.specs.Int.{int_min};
ghost use Rattle.pi_constraints.specs.Domain.{IsWithinBounds};
ghost use Rattle.pi_prop_spec.specs.Places.{domain_at};
ghost use Rattle.pi_prop_places.specs.Changes.{IsCutAt};
ghost use Rattle.pi_prop_places.specs.Reads.{HasValueWith};
ghost use Rattle.pi_prop_places.specs.Terms.{passes, BothAreSmall, MayBeRest};

use crate::places::Places;
use std::alloc::{AllocError, Global};

/// The least that a term adds, or that terms add together, and the least that their negatives add.
#[derive(Clone, Copy)]
pub struct Extremes {
    pub least: i128,
    pub opposite: i128,
}

/// What a term with this coefficient adds, for values from `lo` to `hi`.
pub(crate) fn extremes_of(coefficient: i128, lo: i128, hi: i128) -> Extremes
    requires coefficient { nat_abs coefficient ≤ 2 ^ 40 }
    requires low { IsWithinBounds lo }
    requires high { IsWithinBounds hi }
    ensures least { result.least ≡ int_min (coefficient *ℤ lo) (coefficient *ℤ hi) }
    ensures opposite { result.opposite ≡ int_min (neg_ℤ coefficient *ℤ lo) (neg_ℤ coefficient *ℤ hi) }
    ensures small { BothAreSmall (2 ^ 96) result.least result.opposite }
{
    let first = coefficient * lo;
    let last = coefficient * hi;
    Extremes {
        least: first.min(last),
        opposite: (-first).min(-last),
    }
}

/// What is to be added to a place's part of a sum, so that the whole isn't to be above 0: to `coefficient * n`, and to
/// its negative. Where there is none, nothing is asked.
#[derive(Clone, Copy)]
pub(crate) struct Rests {
    pub(crate) above: Option<i128>,
    pub(crate) below: Option<i128>,
}

/// Leaves a place the values that both rests ask for.
pub(crate) fn cut_term<P: Places>(
    alloc: Global,
    places: &mut P,
    k: usize,
    coefficient: i128,
    rests: Rests,
) -> Result<(), AllocError>
    requires coefficient { coefficient ≢ pos 0 }
    requires small { nat_abs coefficient ≤ 2 ^ 40 }
    requires above { MayBeRest rests.above }
    requires below { MayBeRest rests.below }
    ensures { IfOk result (λ _. IsCutAt k (λ n. passes rests.above (coefficient *ℤ n) && passes rests.below
        (neg_ℤ coefficient *ℤ n)) (P.domains places.old) (P.domains places.new)) }
{
    cut_by(alloc, places, k, coefficient, rests.above)?;
    cut_by(alloc, places, k, -coefficient, rests.below)?;
    Ok(())
}

/// Leaves a place the values that a rest asks for.
fn cut_by<P: Places>(
    alloc: Global,
    places: &mut P,
    k: usize,
    coefficient: i128,
    rest: Option<i128>,
) -> Result<(), AllocError>
    requires coefficient { coefficient ≢ pos 0 }
    requires rest { MayBeRest rest }
    ensures { IfOk result (λ _. IsCutAt k (λ n. passes rest (coefficient *ℤ n)) (P.domains places.old) (P.domains places.new)) }
{
    match rest {
        Some(rest) => cut_place(alloc, places, k, coefficient, rest),
        None => Ok(()),
    }
}

/// Leaves a place the values `n` for which `coefficient * n + rest` isn't above 0. A quotient whose remainder isn't negative
/// is rounded as that asks for: down where the coefficient is above 0, and up where it is below.
pub(crate) fn cut_place<P: Places>(
    alloc: Global,
    places: &mut P,
    k: usize,
    coefficient: i128,
    rest: i128,
) -> Result<(), AllocError>
    requires coefficient { coefficient ≢ pos 0 }
    requires rest { nat_abs rest ≤ 2 ^ 120 }
    ensures { IfOk result (λ _. IsCutAt k (λ n. int_le (coefficient *ℤ n +ℤ rest) (pos 0)) (P.domains places.old) (P.domains places.new)) }
{
    let bound = (-rest).div_euclid(coefficient);
    if coefficient > 0 {
        places.cut_above(alloc, k, bound)?;
        Ok(())
    } else {
        places.cut_below(alloc, k, bound)?;
        Ok(())
    }
}

/// Whether a place has a value `n` for which neither `coefficient * n + above` nor `below - coefficient * n` is above 0.
pub fn has_with<P: Places>(
    places: &P,
    k: usize,
    coefficient: i128,
    above: i128,
    below: i128,
) -> bool
    requires coefficient { coefficient ≢ pos 0 }
    requires small { nat_abs coefficient ≤ 2 ^ 40 }
    requires above { nat_abs above ≤ 2 ^ 120 }
    requires below { nat_abs below ≤ 2 ^ 120 }
    ensures { IsTrue result ↔ HasValueWith (domain_at (P.domains places.now) k) coefficient above below }
{
    let first = (-above).div_euclid(coefficient);
    let last = (-below).div_euclid(-coefficient);
    if coefficient > 0 {
        places.has_between(k, last, first)
    } else {
        places.has_between(k, first, last)
    }
}
