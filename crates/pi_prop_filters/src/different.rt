//! The filter of `all_different`: the value of each fixed place goes from all others.
ghost use Rattle.std.specs.Prelude.{◌≢◌, ℕ, IfOk, Contains, length};
ghost use Rattle.pi_prop_spec.specs.Rules.{DifferentKeeps};
ghost use Rattle.pi_prop_places.specs.Changes.{IsKeptAt, AreFiltered};
ghost use Rattle.pi_prop_filters.specs.Fixed.{AreFixedPlaces, AscendByValue};

use pi_prop_places::Places;
use std::alloc::{AllocError, Global};

/// A place with one value alone: this value, and the place's number.
type Fixed = (i64, usize);

/// Leaves each place the values that no other place is fixed to. It reads all fixed places before it takes a value from one.
pub fn filter_different<P: Places>(alloc: Global, places: &mut P) -> Result<(), AllocError>
    ensures { IfOk result (λ _. AreFiltered (DifferentKeeps (P.domains places.old)) (P.domains places.old) (P.domains places.new)) }
{
    let fixed = fixed_places(alloc, places)?;
    for k in 0..places.count() {
        take_fixed(alloc, places, k, fixed.as_slice())?;
    }
    Ok(())
}

/// The fixed places, by ascending values.
fn fixed_places<P: Places>(alloc: Global, places: &P) -> Result<Vec<Fixed>, AllocError>
    ensures fixed { IfOk result (λ made. AreFixedPlaces (P.domains places.now) (length (P.domains places.now)) made.items) }
    ensures ascend { IfOk result (λ made. AscendByValue made.items) }
{
    let mut fixed = Vec::new(alloc);
    for k in 0..places.count() {
        let value = places.least(k);
        if value == places.greatest(k) {
            fixed.push((value, k))?;
        }
    }
    fixed.sort_unstable();
    Ok(fixed)
}

/// Takes the values of all other fixed places from a place. It looks at those between the ends of the place alone.
fn take_fixed<P: Places>(
    alloc: Global,
    places: &mut P,
    k: usize,
    fixed: &[Fixed],
) -> Result<(), AllocError>
    requires ascend { AscendByValue fixed.now }
    ensures { IfOk result (λ _. IsKeptAt k (λ n. (j : ℕ) → j ≢ k → Contains fixed.now (n, j) →
        ⊥) (P.domains places.old) (P.domains places.new)) }
{
    let lo = places.least(k);
    let hi = places.greatest(k);
    let start = fixed.partition_point(|one| one.0 < lo);
    for i in start..fixed.len() {
        let (value, j) = fixed[i];
        if value > hi {
            return Ok(());
        }
        if j != k {
            places.remove(alloc, k, i128::from(value))?;
        }
    }
    Ok(())
}
