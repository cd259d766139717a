//! Laws of lowering, each a clause of a function that does nothing.
ghost use Rattle.pi_rewrite_laws.specs.Laws.{ProgramsAreKept, GoalsAreKept};

/// Each program that is lowered, loops and comprehensions among its forms, has a core program that keeps its meaning,
/// whatever own names the helpers of its loops get; and of each such core program each goal that is asked of the program
/// has a query that means the same and has its runs.
pub fn meanings_are_kept()
    ensures programs { ProgramsAreKept }
    ensures goals { GoalsAreKept }
{}
