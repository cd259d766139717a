//! Sums that are not to be 0: the value that makes one 0 goes.
ghost use Rattle.std.specs.Prelude.{◌≡◌, ◌≢◌, ◌↔◌, ◌+◌, ◌≤◌, ◌^◌, IfOk, IsTrue, pos, ◌-ℤ◌, ◌*ℤ◌, neg_ℤ, nat_abs, length, drop};
ghost use Rattle.std.specs.Int.{int_div_euclid};
ghost use Rattle.pi_prop_spec.specs.Ends.{IsFixed};
ghost use Rattle.pi_prop_spec.specs.Places.{domain_at};
ghost use Rattle.pi_prop_spec.specs.Sums.{coefficient_at, least_part};
ghost use Rattle.pi_prop_places.specs.Changes.{IsCutAt, AreCutFrom};
ghost use Rattle.pi_prop_places.specs.Roots.{ShowsOpen, roots_keep, is_no_root, seen_open};
ghost use Rattle.pi_prop_places.specs.declared.roots.Open.{Open};
ghost use Rattle.pi_prop_places.specs.Terms.{AreCoefficients};

use crate::bounds::{extremes, extremes_at};
use crate::places::Places;
use pi_constraints::LinTerm;
use std::alloc::{AllocError, Global};

/// Which of some places aren't fixed.
#[derive(Clone, Copy)]
pub(crate) enum Open {
    /// None.
    Nowhere,
    /// The place with this number, counted from the first of them.
    Once(usize),
    /// Two or more.
    Often,
}

/// Takes from each place of a sum, from the place `first` on, the value that makes the sum 0, where all others are fixed.
pub(crate) fn remove_roots<P: Places>(
    alloc: Global,
    places: &mut P,
    first: usize,
    terms: &[LinTerm],
    constant: i128,
) -> Result<(), AllocError>
    requires first { first ≤ 1 }
    requires count { length (P.domains places.old) ≡ first + length terms.now }
    requires few { length terms.now ≤ 2 ^ 20 }
    requires coefficients { AreCoefficients terms.now }
    requires constant { nat_abs constant ≤ 2 ^ 100 }
    ensures { IfOk result (λ _. (spot : Open) × ShowsOpen (drop first (P.domains places.old)) (length terms.now) spot ×
        AreCutFrom first (length terms.now) (roots_keep spot terms.now constant (drop first (P.domains places.old)))
        (P.domains places.old) (P.domains places.new)) }
{
    let all = extremes(terms, places, first);
    let sum = constant + all.least;
    match open_places(places, first, terms.len()) {
        Open::Nowhere => {
            remove_each(alloc, places, first, terms, sum)?;
            Ok(())
        }
        Open::Once(i) => {
            remove_at(alloc, places, first + i, terms[i].0, sum)?;
            Ok(())
        }
        Open::Often => Ok(()),
    }
}

/// Which of so many places, from the place `first` on, aren't fixed. It looks at no more once it has found two.
fn open_places<P: Places>(places: &P, first: usize, count: usize) -> Open
    requires first { first ≤ 1 }
    requires few { count ≤ 2 ^ 20 }
    ensures { ShowsOpen (drop first (P.domains places.now)) count result }
{
    let mut spot = Open::Nowhere;
    for i in 0..count {
        if let Open::Often = spot {
            return Open::Often;
        }
        spot = spot.seen(i, is_fixed(places, first + i));
    }
    spot
}

impl Open {
    /// Which places aren't fixed, where one more was looked at.
    fn seen(self, i: usize, fixed: bool) -> Open
        ensures { result ≡ seen_open self i fixed }
    {
        if fixed {
            return self;
        }
        match self {
            Open::Nowhere => Open::Once(i),
            Open::Once(_) => Open::Often,
            Open::Often => Open::Often,
        }
    }
}

/// Whether a place has one value alone.
pub fn is_fixed<P: Places>(places: &P, k: usize) -> bool
    ensures { IsTrue result ↔ IsFixed (domain_at (P.domains places.now) k) }
{
    let lo = places.least(k);
    let hi = places.greatest(k);
    lo == hi
}

/// Takes from each place of a sum the value that makes the sum 0; `sum` is what the constant and all terms add at least.
fn remove_each<P: Places>(
    alloc: Global,
    places: &mut P,
    first: usize,
    terms: &[LinTerm],
    sum: i128,
) -> Result<(), AllocError>
    requires first { first ≤ 1 }
    requires count { length (P.domains places.old) ≡ first + length terms.now }
    requires few { length terms.now ≤ 2 ^ 20 }
    requires coefficients { AreCoefficients terms.now }
    requires sum { nat_abs sum ≤ 2 ^ 117 }
    ensures { IfOk result (λ _. AreCutFrom first (length terms.now)
        (λ j n. is_no_root (coefficient_at terms.now j)
        (sum -ℤ least_part (coefficient_at terms.now j) (domain_at (P.domains places.old) (first + j))) n) (P.domains places.old)
        (P.domains places.new)) }
{
    for i in 0..terms.len() {
        let (coefficient, _) = terms[i];
        remove_at(alloc, places, first + i, coefficient, sum)?;
    }
    Ok(())
}

/// Takes from the place of a term the value that makes a sum 0; `sum` is what the constant and all terms add at least.
fn remove_at<P: Places>(
    alloc: Global,
    places: &mut P,
    k: usize,
    coefficient: i128,
    sum: i128,
) -> Result<(), AllocError>
    requires coefficient { coefficient ≢ pos 0 }
    requires narrow { nat_abs coefficient ≤ 2 ^ 40 }
    requires sum { nat_abs sum ≤ 2 ^ 117 }
    ensures { IfOk result (λ _. IsCutAt k (is_no_root coefficient
        (sum -ℤ least_part coefficient (domain_at (P.domains places.old) k))) (P.domains places.old) (P.domains places.new)) }
{
    let part = extremes_at(coefficient, places, k);
    remove_root(alloc, places, k, coefficient, sum - part.least)?;
    Ok(())
}

/// Takes from a place the `n` for which `coefficient * n + rest` is 0, where there is one.
fn remove_root<P: Places>(
    alloc: Global,
    places: &mut P,
    k: usize,
    coefficient: i128,
    rest: i128,
) -> Result<(), AllocError>
    requires coefficient { coefficient ≢ pos 0 }
    requires narrow { nat_abs coefficient ≤ 2 ^ 40 }
    requires rest { nat_abs rest ≤ 2 ^ 120 }
    ensures { IfOk result (λ _. IsCutAt k (is_no_root coefficient rest) (P.domains places.old) (P.domains places.new)) }
{
    let root = (-rest).div_euclid(coefficient);
    if is_root(coefficient, rest, root) {
        places.remove(alloc, k, root)?;
        Ok(())
    } else {
        Ok(())
    }
}

/// Whether a quotient leaves no rest.
fn is_root(coefficient: i128, rest: i128, root: i128) -> bool
    requires root { root ≡ int_div_euclid (neg_ℤ rest) coefficient }
    requires coefficient { coefficient ≢ pos 0 }
    requires narrow { nat_abs coefficient ≤ 2 ^ 40 }
    requires rest { nat_abs rest ≤ 2 ^ 120 }
    ensures { IsTrue result ↔ (coefficient *ℤ root ≡ neg_ℤ rest) }
{
    coefficient * root == -rest
}
