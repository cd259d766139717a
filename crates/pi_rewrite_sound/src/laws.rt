//! Laws of soundness, each a clause of a function that does nothing.
ghost use Rattle.pi_rewrite_sound.specs.Laws.{LoweredProgramsAreSound, LoweredProgramsAreClosed, LoweredProgramsArePlain, LoweredProgramsHaveClauses, LoweredQueriesAreSound};
ghost use Rattle.pi_rewrite_sound.specs.LaterLaws.{LevelsAreTheSame, CallsAreTheSame, GoalsAreTheSame, RunsAreTheSame};
ghost use Rattle.pi_rewrite_sound.specs.FaultlessLaws.{FaultlessProgramsAreWithin, FaultlessGoalsAreAsked};

/// What a program whose parts are built is lowered to, loops among the rest, is sound, and calls what it defines and
/// what the tables of built-ins have; and so is what a goal is lowered to that is asked of it.
pub fn lowered_is_sound()
    ensures programs { LoweredProgramsAreSound }
    ensures closed { LoweredProgramsAreClosed }
    ensures plain { LoweredProgramsArePlain }
    ensures clauses { LoweredProgramsHaveClauses }
    ensures queries { LoweredQueriesAreSound }
{}

/// At each depth a program, all of whose parts are built and which calls no term by `call`, has one level, whatever later
/// stages of the language give: so each call of what it has does the
/// same.
pub fn levels_are_the_same()
    ensures levels { LevelsAreTheSame }
    ensures calls { CallsAreTheSame }
{}

/// A goal that is built and calls no term, asked of such a program, has one trace from each place, and the same runs.
pub fn goals_are_the_same()
    ensures goals { GoalsAreTheSame }
    ensures runs { RunsAreTheSame }
{}

/// A program without a fault, all of whose parts are built, is within what is lowered; and a goal without a fault that is
/// built is one that may be asked of its program.
pub fn faultless_texts_are_lowered()
    ensures programs { FaultlessProgramsAreWithin }
    ensures goals { FaultlessGoalsAreAsked }
{}
