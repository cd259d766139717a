//! Laws of filters.
ghost use Rattle.pi_prop_spec.specs.Laws.{FiltersAreMonotone, FiltersKeepSolutions, FiltersAreDecisive, DistinctSaysDifferent, DistinctLeavesNoMore};

/// A filter leaves no more of fewer values. It loses no solution: the values of an assignment under which the constraint holds
/// stay, each at its place. Where each place has one value, it empties a domain just where the constraint doesn't hold.
pub fn filters_are_sound()
    ensures monotone { FiltersAreMonotone }
    ensures solutions { FiltersKeepSolutions }
    ensures decisive { FiltersAreDecisive }
{}

/// `Distinct` says of values what `Different` says, and its filter leaves no value that that of `Different` doesn't leave.
pub fn distinct_is_stronger()
    ensures solutions { DistinctSaysDifferent }
    ensures leaves { DistinctLeavesNoMore }
{}
