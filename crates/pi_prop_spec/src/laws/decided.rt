//! The law of the filter as a test.
ghost use Rattle.pi_prop_spec.specs.DecidedLaws.{LeavesIsDecided};

/// Of domains, one for each place, a test tells which values the filter of a constraint leaves.
pub fn filters_are_decided()
    ensures { LeavesIsDecided }
{}
