//! The filter of `all_distinct`: no interval is to have more places than numbers.
ghost use Rattle.std.specs.Prelude.{IfOk};
ghost use Rattle.pi_prop_spec.specs.Rules.{DistinctKeeps};
ghost use Rattle.pi_prop_places.specs.Changes.{AreFiltered};

use crate::different::filter_different;
use crate::ends::{all_ends, by_greatest};
use crate::full::take_full;
use pi_prop_places::{Places, take_all};
use std::alloc::{AllocError, Global};

/// Leaves each place the values that no other place is fixed to, and those that no full interval has within which it doesn't
/// lie; none at all where an interval has more places than numbers. It sorts the places once, and looks at the ends of their given domains.
pub fn filter_distinct<P: Places>(alloc: Global, places: &mut P) -> Result<(), AllocError>
    ensures { IfOk result (λ _. AreFiltered (DistinctKeeps (P.domains places.old)) (P.domains places.old) (P.domains places.new)) }
{
    let ends = all_ends(alloc, places)?;
    let sorted = by_greatest(alloc, places)?;
    filter_different(alloc, places)?;
    let taken = take_full(alloc, places, ends.as_slice(), sorted.as_slice())?;
    if taken {
        return Ok(());
    }
    take_all(alloc, places)?;
    Ok(())
}
