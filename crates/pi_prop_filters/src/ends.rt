//! The ends of places, and the full intervals among them.
ghost use Rattle.std.specs.Prelude.{◌≡◌, IfOk, MatchOption, All};
ghost use Rattle.std.specs.List.Sorted.{IsPermutation};
ghost use Rattle.pi_constraints.specs.Domain.{IsWithinBounds};
ghost use Rattle.pi_prop_spec.specs.Ends.{least_of, greatest_of};
ghost use Rattle.pi_prop_spec.specs.Places.{domain_at};
ghost use Rattle.pi_prop_filters.specs.Intervals.{ends_of, IsEnds, ByGreatest, IsOverfull, AreFullEnds};

use pi_prop_places::Places;
use std::alloc::{AllocError, Global};

/// The greatest and the least value of a place.
pub(crate) type Ends = (i64, i64);

/// The ends of each place.
pub(crate) fn all_ends<P: Places>(alloc: Global, places: &P) -> Result<Vec<Ends>, AllocError>
    ensures all { IfOk result (λ made. made.items ≡ ends_of (P.domains places.now)) }
    ensures ends { IfOk result (λ made. All IsEnds made.items) }
{
    let mut ends = Vec::new(alloc);
    for k in 0..places.count() {
        ends.push(ends_at(places, k))?;
    }
    Ok(ends)
}

/// The ends of a place.
fn ends_at<P: Places>(places: &P, k: usize) -> Ends
    ensures is { result ≡ (greatest_of (domain_at (P.domains places.now) k), least_of (domain_at (P.domains places.now) k)) }
    ensures ends { IsEnds result }
{
    (places.greatest(k), places.least(k))
}

/// The ends of all places by ascending greatest values.
pub(crate) fn by_greatest<P: Places>(alloc: Global, places: &P) -> Result<Vec<Ends>, AllocError>
    ensures same { IfOk result (λ made. IsPermutation (ends_of (P.domains places.now)) made.items) }
    ensures sorted { IfOk result (λ made. ByGreatest made.items) }
{
    let mut sorted = all_ends(alloc, places)?;
    sorted.sort_unstable();
    Ok(sorted)
}

/// The ends of the intervals that begin with `a` and have as many places as numbers, ascending; None where one has more places
/// than numbers. The places are counted in the order of their greatest values. An interval with more numbers than there are
/// places ends the search.
pub(crate) fn full_ends(
    alloc: Global,
    sorted: &[Ends],
    a: i64,
) -> Result<Option<Vec<i64>>, AllocError>
    requires sorted { ByGreatest sorted.now }
    requires ends { All IsEnds sorted.now }
    requires from { IsWithinBounds a }
    ensures { IfOk result (λ found. MatchOption found (IsOverfull a sorted.now) (λ full. AreFullEnds a sorted.now full.items)) }
{
    let most = sorted.len() as u64;
    let mut full = Vec::new(alloc);
    let mut count = 0;
    for i in 0..sorted.len() {
        let (greatest, least) = sorted[i];
        if a <= least {
            count += 1;
            let width = greatest.abs_diff(a) + 1;
            if width > most {
                return Ok(Some(full));
            }
            if width < count {
                return Ok(None);
            }
            if width == count {
                full.push(greatest)?;
            }
        }
    }
    Ok(Some(full))
}
