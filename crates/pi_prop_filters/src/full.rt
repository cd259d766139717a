//! Full intervals: what goes from the places that don't lie within them.
ghost use Rattle.std.specs.Prelude.{◌≡◌, ◌-◌, ◌≤◌, ◌<◌, ℕ, IfOk, All, IsTrue, length, get_or, false, true, pos};
ghost use Rattle.pi_constraints.specs.Domain.{IsWithinBounds};
ghost use Rattle.pi_prop_places.specs.Changes.{IsKeptAt, AreFiltered};
ghost use Rattle.pi_prop_filters.specs.Intervals.{is_inside, IsEnds, ByGreatest, IsAscending, IsOutside};
ghost use Rattle.pi_prop_filters.specs.Taken.{ends_at, least_at, AreTakenFrom, AreTaken};

use crate::ends::{Ends, full_ends};
use pi_prop_places::{Places, take_between};
use std::alloc::{AllocError, Global};

/// Takes the numbers of each full interval from the places that don't lie within it, and answers true; false where an interval
/// has more places than numbers. `sorted` has the ends by ascending greatest values.
pub(crate) fn take_full<P: Places>(
    alloc: Global,
    places: &mut P,
    ends: &[Ends],
    sorted: &[Ends],
) -> Result<bool, AllocError>
    requires count { length (P.domains places.old) ≡ length ends.now }
    requires ends { All IsEnds sorted.now }
    requires sorted { ByGreatest sorted.now }
    ensures { IfOk result (λ taken. AreTaken taken ends.now sorted.now (P.domains places.old) (P.domains places.new)) }
{
    for i in 0..sorted.len() {
        if repeats(sorted, i) {
            continue;
        }
        let taken = take_from(alloc, places, ends, sorted, sorted[i].1)?;
        if !taken {
            return Ok(false);
        }
    }
    Ok(true)
}

/// Whether the ends before these have the same least value.
fn repeats(sorted: &[Ends], i: usize) -> bool
    requires { i < length sorted.now }
    ensures { IsTrue result → (0 < i) × (least_at sorted.now (i - 1) ≡ least_at sorted.now i) }
{
    if i == 0 {
        return false;
    }
    sorted[i - 1].1 == sorted[i].1
}

/// The same of the intervals that begin with `a`.
fn take_from<P: Places>(
    alloc: Global,
    places: &mut P,
    ends: &[Ends],
    sorted: &[Ends],
    a: i64,
) -> Result<bool, AllocError>
    requires count { length (P.domains places.old) ≡ length ends.now }
    requires ends { All IsEnds sorted.now }
    requires sorted { ByGreatest sorted.now }
    requires from { IsWithinBounds a }
    ensures { IfOk result (λ taken. AreTakenFrom taken a ends.now sorted.now (P.domains places.old) (P.domains places.new)) }
{
    match full_ends(alloc, sorted, a)? {
        None => Ok(false),
        Some(full) => {
            take_each(alloc, places, ends, a, full.as_slice())?;
            Ok(true)
        }
    }
}

/// Takes the intervals from `a` to each of these ends from the places that don't lie within them.
fn take_each<P: Places>(
    alloc: Global,
    places: &mut P,
    ends: &[Ends],
    a: i64,
    full: &[i64],
) -> Result<(), AllocError>
    requires count { length (P.domains places.old) ≡ length ends.now }
    requires from { IsWithinBounds a }
    requires full { All IsWithinBounds full.now }
    requires ascend { IsAscending full.now }
    ensures { IfOk result (λ _. AreFiltered (λ k. IsOutside a full.now (ends_at ends.now k)) (P.domains places.old)
        (P.domains places.new)) }
{
    if full.is_empty() {
        return Ok(());
    }
    for k in 0..ends.len() {
        take_at(alloc, places, k, ends[k], a, full)?;
    }
    Ok(())
}

/// Takes the intervals within which the ends of a place don't lie from this place: the widest of them has the others.
fn take_at<P: Places>(
    alloc: Global,
    places: &mut P,
    k: usize,
    ends: Ends,
    a: i64,
    full: &[i64],
) -> Result<(), AllocError>
    requires from { IsWithinBounds a }
    requires full { All IsWithinBounds full.now }
    requires ascend { IsAscending full.now }
    ensures { IfOk result (λ _. IsKeptAt k (IsOutside a full.now ends) (P.domains places.old) (P.domains places.new)) }
{
    let many = count_outside(ends, a, full);
    if many > 0 {
        take_between(alloc, places, k, a, full[many - 1])?;
    }
    Ok(())
}

/// How many of these intervals from `a` on don't have the ends within them: the first so many.
fn count_outside(ends: Ends, a: i64, full: &[i64]) -> usize
    requires ascend { IsAscending full.now }
    ensures many { result ≤ length full.now }
    ensures outside { (i : ℕ) → i < result → is_inside a (get_or full.now i (pos 0)) ends ≡ false }
    ensures inside { (i : ℕ) → result ≤ i → i < length full.now → is_inside a (get_or full.now i (pos 0)) ends ≡ true }
{
    let (greatest, least) = ends;
    if least < a {
        return full.len();
    }
    full.partition_point(|b| *b < greatest)
}
