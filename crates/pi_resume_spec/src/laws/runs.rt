//! Laws of runs that tell paths, and of resumed runs, each cut just before a Tick.
ghost use Rattle.pi_resume_spec.specs.RunLaws.{ToldPathsAreShort, ShortPathsAreTold, TheFirstLongPathEnds, SpentOnTheWay, CutBehindTheWay, BadExactlyAtTheEnd, EndsOnTheWay, MoreDepthLeavesCuts, NamesOnlyAdd, BuiltSearchesAdd, PathsDoMore, QueriesFollowMore, PathRunIsOne, DeeperPathRuns, ResumedRunIsOne, DeeperResumedRuns, ToldRunsResume, CutRunsResume, ToldPathsAreGood, SoundQueriesTellPaths, SoundQueriesAreResumed, SoundQueriesReach, QueriesBehindAreOne, LoadsOfTheWayCount, AskedOnTheWay};

/// An exception stands in place of the first answer whose path is too long, and of all that is behind it; where there is none
/// nothing is changed.
pub fn long_paths_end<A>()
    ensures short { ToldPathsAreShort A }
    ensures told { ShortPathsAreTold A }
    ensures first { TheFirstLongPathEnds A }
{}

/// A resumed run is spent on its way, or is what counts there and then what stands behind the answer of its path. The path is
/// bad exactly where the way ends without that answer. More depth leaves a cut to which the depth reaches.
pub fn resumed_runs_are_cut<A>()
    ensures spent { SpentOnTheWay A }
    ensures behind { CutBehindTheWay A }
    ensures bad { BadExactlyAtTheEnd A }
    ensures ends { EndsOnTheWay A }
    ensures depth { MoreDepthLeavesCuts A }
{}

/// More depth only adds to a query's ways and to what it does by a path.
pub fn more_depth_follows_more()
    ensures names { NamesOnlyAdd }
    ensures nothing { BuiltSearchesAdd }
    ensures ways { PathsDoMore }
    ensures follows { QueriesFollowMore }
{}

/// All depths that reach to a cut give one run, and one resumed run.
pub fn runs_with_paths_are_one()
    ensures run { PathRunIsOne }
    ensures deeper { DeeperPathRuns }
    ensures resumed { ResumedRunIsOne }
    ensures resumed_deeper { DeeperResumedRuns }
{}

/// Behind an answer that a run tells its resumed run goes on as the run does, cut or not, and the answer's path isn't bad.
pub fn cut_runs_resume()
    ensures resume { ToldRunsResume }
    ensures cut { CutRunsResume }
    ensures good { ToldPathsAreGood }
{}

/// A resumed run as a query: it is one, the loads on its way count, and a call that is missing there is asked for.
pub fn resumed_work_is_counted()
    ensures one { QueriesBehindAreOne }
    ensures loads { LoadsOfTheWayCount }
    ensures asked { AskedOnTheWay }
{}

/// With what is built of later stages each sound query has its run, and from each path its resumed run, also as a query.
pub fn sound_queries_resume()
    ensures run { SoundQueriesTellPaths }
    ensures resumed { SoundQueriesAreResumed }
    ensures reach { SoundQueriesReach }
{}
