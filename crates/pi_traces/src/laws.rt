//! Laws of traces.
ghost use Rattle.pi_traces.specs.Laws.{TraceIsEventsAndEnd, AltGoesOnWhereDone, AltIsTheFirstElse, DoneBeforeAddsNothing, DoneAfterAddsNothing, AltIsAssociative, ThenOfOneIsWhatFollows, ThenOneAddsNothing, ThenIsAssociative, ThenGoesOverAlt, ThenAtAnEnd, ThenAtANote, ThenAtAnAnswer, ThenKeepsNotes, AltKeepsEvents};
ghost use Rattle.pi_traces.specs.Laws.{FirstHasNoOther, FirstStopsAtAnAnswer, FirstIsAllWithoutAnswers, ChosenIsThen, ChosenIsElse, NegatedIsChosen, CollectedIsTheList, CountedIsTheLength, CaughtGoesOn, CaughtIsTheRest, CaughtKeepsEvents, RaiseBehindIsNotCaught, CatchWithoutRaiseIsNone, CaughtRaiseIsFollowed};
ghost use Rattle.pi_traces.specs.Laws.{FirstOverAlt, NegatedOverAlt, ChosenOverAlt, CollectedOverAlt, CountedOverAlt, CaughtOverAlt};
ghost use Rattle.pi_traces.specs.Laws.{BelowIsReflexive, BelowIsTransitive, BelowIsAntisymmetric, WithoutDeepNothingIsAdded, DepthIsEnough, AltKeepsBelow, ThenKeepsBelow, FirstKeepsBelow, NegatedKeepsBelow, ChosenKeepsBelow, CollectedKeepsBelow, CountedKeepsBelow, CaughtKeepsBelow, EmitKeepsBelow, BelowKeepsEvents};
ghost use Rattle.pi_traces.specs.Laws.{EmitIsAssociative, CutIsAPrefix, CutGoesOverEvents, CutStopsAtATick, CutLeavesFewerTicks, CutsTellTraces, BelowLeavesCuts, DepthsAgree};

/// A trace is a list of events and an end, and an alternative goes on where the end is Done.
pub fn ends<A>()
    ensures events { TraceIsEventsAndEnd A }
    ensures goes_on { AltGoesOnWhereDone A }
    ensures stops { AltIsTheFirstElse A }
{}

/// Alternatives and what follows an answer are a monad with choice.
pub fn sequences<A, B, C>()
    ensures done_before { DoneBeforeAddsNothing A }
    ensures done_after { DoneAfterAddsNothing A }
    ensures alternatives { AltIsAssociative A }
    ensures of_one { ThenOfOneIsWhatFollows A B }
    ensures one { ThenOneAddsNothing A }
    ensures follows { ThenIsAssociative A B C }
    ensures over_alternatives { ThenGoesOverAlt A B }
{}

/// What follows, step by step: an end stays, a note stays in front, and what follows an answer stands in its place.
pub fn steps<A, B>()
    ensures end { ThenAtAnEnd A B }
    ensures note { ThenAtANote A B }
    ensures answer { ThenAtAnAnswer A B }
    ensures notes { ThenKeepsNotes A B }
    ensures events { AltKeepsEvents A }
{}

/// What each control form is, by sequences of traces alone.
pub fn control_forms<A, B, C>()
    ensures first { FirstHasNoOther A }
    ensures first_stops { FirstStopsAtAnAnswer A }
    ensures first_all { FirstIsAllWithoutAnswers A }
    ensures chosen_then { ChosenIsThen A B }
    ensures chosen_else { ChosenIsElse A B }
    ensures negated { NegatedIsChosen A B }
    ensures collected { CollectedIsTheList A B C }
    ensures counted { CountedIsTheLength A B }
    ensures caught { CaughtGoesOn A }
    ensures not_caught { CaughtIsTheRest A }
{}

/// A `catch` sees the exceptions of its own goal alone: one in what follows it ends the whole, and isn't caught.
pub fn catches<A, B>()
    ensures events { CaughtKeepsEvents A }
    ensures behind { RaiseBehindIsNotCaught A B }
    ensures none { CatchWithoutRaiseIsNone A B }
    ensures followed { CaughtRaiseIsFollowed A B }
{}

/// What each control form makes of alternatives.
pub fn forms_of_alternatives<A, B, C>()
    ensures first { FirstOverAlt A }
    ensures negated { NegatedOverAlt A B }
    ensures chosen { ChosenOverAlt A B }
    ensures collected { CollectedOverAlt A B C }
    ensures counted { CountedOverAlt A B }
    ensures caught { CaughtOverAlt A }
{}

/// More depth only adds: it is an order, which every way to put traces together keeps.
pub fn more_depth<A, B, C>()
    ensures reflexive { BelowIsReflexive A }
    ensures transitive { BelowIsTransitive A }
    ensures antisymmetric { BelowIsAntisymmetric A }
    ensures whole { WithoutDeepNothingIsAdded A }
    ensures enough { DepthIsEnough A }
    ensures alternatives { AltKeepsBelow A }
    ensures follows { ThenKeepsBelow A B }
    ensures first { FirstKeepsBelow A }
    ensures negated { NegatedKeepsBelow A B }
    ensures chosen { ChosenKeepsBelow A B }
    ensures collected { CollectedKeepsBelow A B C }
    ensures counted { CountedKeepsBelow A B }
    ensures caught { CaughtKeepsBelow A }
    ensures emitted { EmitKeepsBelow A }
    ensures events { BelowKeepsEvents A }
{}

/// A trace is known by its cuts, and all depths that reach to a cut agree on it.
pub fn cuts<A>()
    ensures emitted { EmitIsAssociative A }
    ensures prefix { CutIsAPrefix A }
    ensures over_events { CutGoesOverEvents A }
    ensures at_tick { CutStopsAtATick A }
    ensures all { CutLeavesFewerTicks A }
    ensures known { CutsTellTraces A }
    ensures below { BelowLeavesCuts A }
    ensures depths { DepthsAgree A }
{}
