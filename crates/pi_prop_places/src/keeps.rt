//! What is left of one place: the values between two numbers, those whose multiples lie there, those that don't.
ghost use Rattle.std.specs.Prelude.{◌≡◌, ◌≢◌, ◌≤◌, ◌^◌, ◌&&◌, not, IfOk, ℤ, pos, ◌+ℤ◌, ◌*ℤ◌, ◌≤ℤ◌, ◌<ℤ◌, neg_ℤ, int_le, nat_abs};
ghost use Rattle.pi_constraints.specs.declared.domain.TheConstants.{MAX_VALUE};
ghost use Rattle.pi_constraints.specs.Domain.{IsWithinBounds, has_value};
ghost use Rattle.pi_prop_places.specs.Changes.{IsCutAt};

use crate::places::Places;
use crate::terms::cut_place;
use pi_constraints::{Domain, MAX_VALUE, Span};
use std::alloc::{AllocError, Global};

/// Leaves a place the values from `lo` to `hi`.
pub fn keep_between<P: Places>(
    alloc: Global,
    places: &mut P,
    k: usize,
    lo: i128,
    hi: i128,
) -> Result<(), AllocError>
    ensures { IfOk result (λ _. IsCutAt k (λ n. int_le lo n && int_le n hi) (P.domains places.old) (P.domains places.new)) }
{
    places.cut_below(alloc, k, lo)?;
    places.cut_above(alloc, k, hi)?;
    Ok(())
}

/// Leaves a place the `n` for which `coefficient * n` lies from `lo` to `hi`.
pub fn keep_scaled<P: Places>(
    alloc: Global,
    places: &mut P,
    k: usize,
    coefficient: i128,
    lo: i128,
    hi: i128,
) -> Result<(), AllocError>
    requires coefficient { coefficient ≢ pos 0 }
    requires narrow { nat_abs coefficient ≤ 2 ^ 56 }
    requires low { nat_abs lo ≤ 2 ^ 56 }
    requires high { nat_abs hi ≤ 2 ^ 56 }
    ensures { IfOk result (λ _. IsCutAt k (λ n. int_le lo (coefficient *ℤ n) && int_le (coefficient *ℤ n) hi)
        (P.domains places.old) (P.domains places.new)) }
{
    cut_place(alloc, places, k, -coefficient, lo)?;
    cut_place(alloc, places, k, coefficient, -hi)?;
    Ok(())
}

/// Takes the values from `lo` to `hi` from a place.
pub fn take_between<P: Places>(
    alloc: Global,
    places: &mut P,
    k: usize,
    lo: i64,
    hi: i64,
) -> Result<(), AllocError>
    requires low { IsWithinBounds lo }
    requires high { IsWithinBounds hi }
    ensures { IfOk result (λ _. IsCutAt k (λ n. not (int_le lo n && int_le n hi)) (P.domains places.old) (P.domains places.new)) }
{
    if !places.has_between(k, i128::from(lo), i128::from(hi)) {
        return Ok(());
    }
    if lo <= places.least(k) {
        places.cut_below(alloc, k, i128::from(hi) + 1)?;
        return Ok(());
    }
    if places.greatest(k) <= hi {
        places.cut_above(alloc, k, i128::from(lo) - 1)?;
        return Ok(());
    }
    let kept = all_outside(alloc, lo, hi)?;
    places.keep(alloc, k, &kept)?;
    Ok(())
}

/// The integers within the bounds of domains that don't lie from `lo` to `hi`.
#[tactic(auto, unfolding(pi_constraints::specs::Domain::AscendFrom))]
fn all_outside(alloc: Global, lo: i64, hi: i64) -> Result<Domain, AllocError>
    requires low { neg_ℤ MAX_VALUE <ℤ lo }
    requires ordered { lo ≤ℤ hi }
    requires high { hi <ℤ MAX_VALUE }
    ensures { IfOk result (λ made. (n : ℤ) → IsWithinBounds n → has_value made n ≡ not (int_le lo n && int_le n hi)) }
{
    let mut spans = Vec::new(alloc);
    spans.push(Span {
        lo: -MAX_VALUE,
        hi: lo - 1,
    })?;
    spans.push(Span {
        lo: hi + 1,
        hi: MAX_VALUE,
    })?;
    Ok(Domain::new(spans))
}
