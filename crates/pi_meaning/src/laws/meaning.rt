//! Laws of the core meaning.
ghost use Rattle.pi_meaning.specs.CoreMeaning.Laws.{WholeOnlyAdds, WholeKnowsWhatIsGiven, TabledIsWhole, GoalsDoMore, LevelsAreOrdered, LevelsAscend, QuietCallsStayAbove, QuietCallsKeepTheDepth, QueriesDoMore, WholeTracesStay, RunIsOne, DeeperRunsAreTheRun, DepthReachesTicks, EachQueryRuns, SoundQueriesRun, RunsKeepStates};

/// With all names of the language more depth only adds to calls by name, where it does to what later stages give.
pub fn built_ins_only_add()
    ensures { WholeOnlyAdds }
{}

/// With all names of the language just those that it gives do something by themselves, which are those that a sound program may call
/// beside what it defines.
pub fn names_are_given()
    ensures { WholeKnowsWhatIsGiven }
{}

/// A query that calls nothing but built-ins of the tables and what its program defines, by names that the language doesn't
/// give, has the same trace
/// with these built-ins alone as with all names of the language.
pub fn tabled_is_whole()
    ensures { TabledIsWhole }
{}

/// Where more depth only adds to calls by name, it does to all: a goal does the same and maybe more where calls do, which is
/// reflexive and transitive, and calls do so at each greater depth. A quiet call leads to a level that is still above that of
/// one depth less, and takes nothing from the depth.
pub fn depths_add()
    ensures goals { GoalsDoMore }
    ensures order { LevelsAreOrdered }
    ensures levels { LevelsAscend }
    ensures quiet { QuietCallsStayAbove }
    ensures quiet_depth { QuietCallsKeepTheDepth }
    ensures queries { QueriesDoMore }
{}

/// A query's trace is the same at each depth that reaches to its end, and its run before a Tick at each depth that reaches
/// to that.
pub fn runs_are_one()
    ensures whole { WholeTracesStay }
    ensures run { RunIsOne }
    ensures deeper { DeeperRunsAreTheRun }
{}

/// With what is built of later stages, where Ticks stand between the calls of quiet predicates, there is a depth that reaches to
/// each Tick of a query's trace, and so each query has its run.
pub fn queries_run()
    ensures reaches { DepthReachesTicks }
    ensures runs { EachQueryRuns }
    ensures sound { SoundQueriesRun }
{}

/// Where no plan of the log holds a variable, each answer of a sound query has a state that settling leaves as it is, and its
/// slots hold terms of variables that were made.
pub fn runs_keep_states()
    ensures { RunsKeepStates }
{}
