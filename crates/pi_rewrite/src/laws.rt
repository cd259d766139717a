//! Laws of lowering.
ghost use Rattle.pi_rewrite.specs.Laws.{ProgramsHaveCorePrograms, GoalsHaveQueries, SameMeaningRunsTheSame};

/// Each program that is within the forms that are lowered, and all of which is built, has a core program that keeps its
/// meaning, and of each such core program each goal that is asked of the program and is built has a query that keeps its
/// own.
pub fn meanings_are_kept()
    ensures programs { ProgramsHaveCorePrograms }
    ensures goals { GoalsHaveQueries }
{}

/// Where a query means what a goal means, its runs are those of the goal over its names.
pub fn same_meanings_run_the_same()
    ensures { SameMeaningRunsTheSame }
{}
