//! Laws of the names of goals of constraints, of functions of domains and of `solve`.
ghost use Rattle.pi_settling.specs.DomainValues.{DomainFunctionsAreListed};
ghost use Rattle.pi_settling.specs.Goals.{ConstraintGoalsAreListed};
ghost use Rattle.pi_settling.specs.SolveCalls.{SolveCallsAreListed};

/// Just the names in the tables do something, each with its numbers of arguments, whatever the arguments and the state are.
pub fn names_are_listed()
    ensures goals { ConstraintGoalsAreListed }
    ensures functions { DomainFunctionsAreListed }
    ensures labelling { SolveCallsAreListed }
{}
