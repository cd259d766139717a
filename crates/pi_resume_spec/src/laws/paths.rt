//! Laws of paths and of resumed runs.
ghost use Rattle.pi_resume_spec.specs.PathLaws.{PlainOfNumbered, PlainOfSequence, PlainOfChoice, PlainOfCatch, PlainOfRules, StraightIsApart, SequencesAreApart, ChoicesAreApart, CatchesAreApart, RulesAreApart, ConditionsAreApart, TicksAreApart, NoTwoPathsAreOne, SimpleIsResumable, SequencesAreResumable, ChoicesAreResumable, CatchesAreResumable, RulesAreResumable, TicksAreResumable, ConditionsAreResumable};

/// Without its paths a trace is what it was, however goals are put together.
pub fn paths_add_nothing<A, B>()
    ensures numbered { PlainOfNumbered A }
    ensures sequence { PlainOfSequence A B }
    ensures choice { PlainOfChoice A }
    ensures catching { PlainOfCatch A }
    ensures rules { PlainOfRules A B }
{}

/// The paths of a trace's answers lead apart, however goals are put together, and so no two answers have one path.
pub fn paths_lead_apart<A, B>()
    ensures straight { StraightIsApart A }
    ensures sequence { SequencesAreApart A B }
    ensures choice { ChoicesAreApart A }
    ensures catching { CatchesAreApart A }
    ensures rules { RulesAreApart A B }
    ensures conditions { ConditionsAreApart A B }
    ensures ticks { TicksAreApart A }
    ensures different { NoTwoPathsAreOne A }
{}

/// A goal without choices that has one answer at most leads to it. Goals that lead to the answers of their paths lead to those
/// of the whole, however they are put together: what stands behind such an answer in the
/// resumed run is what stands behind it in the trace.
pub fn goals_resume<A, B>()
    ensures simple { SimpleIsResumable A }
    ensures sequence { SequencesAreResumable A B }
    ensures choice { ChoicesAreResumable A }
    ensures catching { CatchesAreResumable A }
    ensures rules { RulesAreResumable A B }
    ensures ticks { TicksAreResumable A }
    ensures conditions { ConditionsAreResumable A B }
{}
