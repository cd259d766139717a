//! Laws of right logs.
ghost use Rattle.pi_sat_spec.specs.Fixed.{FixedPlacesTell};
ghost use Rattle.pi_sat_spec.specs.Laws.{LemmasHold, NoSolutionOverARightLog, RightEntriesGrow};

/// Each lemma of right entries holds in each solution. Over a right log no solution exists.
pub fn right_logs_refute()
    ensures lemmas { LemmasHold }
    ensures none { NoSolutionOverARightLog }
{}

/// Right entries with one more that is right over them are right.
pub fn right_entries_grow()
    ensures { RightEntriesGrow }
{}

/// A constraint holds where its filter, of the value alone at each place, leaves each place its value.
pub fn fixed_places_tell()
    ensures { FixedPlacesTell }
{}
