//! Laws of the paths of the core language.
ghost use Rattle.pi_resume_spec.specs.LanguageLaws.{BuiltIsLater, SoundIsCommitted, PathsAddNothing, GoalsAddNothing, AnswersHaveTheirPaths, RunsResume};

/// What the laws ask of later stages is met by what is built of them, and what they ask of quiet predicates by sound programs.
pub fn what_is_asked_is_met()
    ensures later { BuiltIsLater }
    ensures quiet { SoundIsCommitted }
{}

/// Without their paths a query's answers are those of its trace, with all that stands between them; and so it is of each goal, from
/// each place in a run.
pub fn paths_leave_the_meaning()
    ensures queries { PathsAddNothing }
    ensures goals { GoalsAddNothing }
{}

/// No two answers of a query have one path, and none goes on with another.
pub fn answers_have_their_paths()
    ensures { AnswersHaveTheirPaths }
{}

/// The run that is resumed behind an answer of a query comes, by its path, to that answer, and goes on with what stands behind it.
pub fn queries_resume()
    ensures { RunsResume }
{}
