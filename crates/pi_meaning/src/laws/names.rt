//! Laws of the meaning over names.
ghost use Rattle.pi_meaning.specs.OverNames.OtherNames.{OtherNamesChangeNothing};
ghost use Rattle.pi_meaning.specs.OverNames.Kinds.{NamesHaveTheirKinds};
ghost use Rattle.pi_meaning.specs.OverNames.Laws.{CallsGoByValues, ClausesCountAlone, FunctionsGoByValues, GoalsAreCalls, NamesDoMore, NamesRunsAreOne, NamesRunsReach, OtherNamesAreFree, TextsMatchAsLists};

/// Just the names that the language builds in mean something by themselves, each as what it means: a function, a predicate, or a
/// predicate of the prelude. So a name that is neither built in nor a form is free for a program.
pub fn names_have_their_kinds()
    ensures kinds { NamesHaveTheirKinds }
    ensures free { OtherNamesAreFree }
{}

/// The trace of a goal only grows with the depth. So it has one run at most for each program, view and number of Ticks, and it has one
/// where some depth reaches to the cut.
pub fn runs_are_one()
    ensures deeper { NamesDoMore }
    ensures one { NamesRunsAreOne }
    ensures reached { NamesRunsReach }
{}

/// A call goes by what its arguments come to and by the state, and by nothing else: neither by the environment in which it stands nor by
/// what stands before it. A goal that is no form of control is such a call.
pub fn calls_go_by_values()
    ensures predicates { CallsGoByValues }
    ensures functions { FunctionsGoByValues }
    ensures goals { GoalsAreCalls }
{}

/// A name that occurs neither in a goal nor before it changes nothing: the goal does the same whatever the environment has for it.
pub fn other_names_change_nothing()
    ensures { OtherNamesChangeNothing }
{}

/// A text in a head, or as the pattern of an iterator, matches what the list of its characters, each as an atom, matches.
pub fn texts_match_as_lists()
    ensures { TextsMatchAsLists }
{}

/// Parts of a program that have no clause count for nothing.
pub fn clauses_count_alone()
    ensures { ClausesCountAlone }
{}
