//! Laws of the machine as data: what its steps do, and how a whole run stands to the meaning of its query.
ghost use Rattle.pi_meaning.specs.Machine.Leads.{RemainingDoesMore, StartsWithTheMeaning, LeadsOn, DepthSuffices, EndedRunIsAll, RunBeforeTickBegins, EndedRunIsTheRun, SpentRunIsTheRun, RunIsAPrefix};
ghost use Rattle.pi_meaning.specs.Machine.Laws.{StepsAreRight, StepsStayGood, StepsGetLighter, LevelsLeaveNothing};

/// What remains of a run before a step is the step's Tick or answer and what remains after it. A step keeps what is true of
/// each configuration, one without a Tick makes it lighter, and a level that is done with leaves nothing on the stack.
pub fn steps_are_right()
    ensures right { StepsAreRight }
    ensures good { StepsStayGood }
    ensures lighter { StepsGetLighter }
    ensures nothing { LevelsLeaveNothing }
{}

/// At the beginning the query's meaning remains. More depth only adds to what remains, and for each Tick there is a depth
/// that reaches to it. Runs are put together by their events.
pub fn runs_lead_on()
    ensures more { RemainingDoesMore }
    ensures starts { StartsWithTheMeaning }
    ensures on { LeadsOn }
    ensures depth { DepthSuffices }
{}

/// Where a run ends, its events and its end are the whole meaning of the query; where it stops before a Tick, they are the
/// meaning up to that Tick; at each moment they are a prefix of it.
pub fn runs_stop()
    ensures ended { EndedRunIsAll }
    ensures tick { RunBeforeTickBegins }
    ensures ended_run { EndedRunIsTheRun }
    ensures spent_run { SpentRunIsTheRun }
    ensures prefix { RunIsAPrefix }
{}
