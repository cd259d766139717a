//! Laws of labelling.
ghost use Rattle.pi_label_laws.specs.LabelledLaws.{PostingsMayBeLabelled, WithoutConstraintsMayBeLabelled};
ghost use Rattle.pi_label_laws.specs.ObjectiveLaws.{ObjectiveGivesTheBest, ReadingIsRight, SolveGivesTheBest};
ghost use Rattle.pi_label_laws.specs.ReadingLaws.{NewVariablesAreMade, NewVariablesOfOperandsAreMade};
ghost use Rattle.pi_label_laws.specs.SolutionLaws.{DrainingRunsWhatWaits, LabellingGivesTheSolutions, SolveGivesTheSolutions};

/// Without an objective the answers are exactly the assignments of the call's variables that extend to a solution of all that is
/// posted, each once, in the order of the options: by any way to settle, and so by the one that is computed.
pub fn labelling_gives_the_solutions()
    ensures labelling { LabellingGivesTheSolutions }
    ensures solve { SolveGivesTheSolutions }
{}

/// Draining is what these laws ask of what runs what waits.
pub fn draining_runs_what_waits<X>()
    ensures { DrainingRunsWhatWaits X }
{}

/// With an objective whose expression is read rightly, and where nothing is raised, the one answer is a best of these assignments, and
/// there is none exactly where there are no assignments. Constraints are read rightly where the expression's variables are among those of
/// the call and the values of its new variables lie within the bounds.
pub fn an_objective_gives_the_best()
    ensures objective { ObjectiveGivesTheBest }
    ensures reading { ReadingIsRight }
    ensures solve { SolveGivesTheBest }
{}

/// The value of each new variable of a posting is made by what is posted, out of those of variables with lower numbers.
pub fn new_variables_are_made()
    ensures goals { NewVariablesAreMade }
    ensures operands { NewVariablesOfOperandsAreMade }
{}

/// A state without constraints may be labelled; and what a goal posts over variables that are labelled, settled, leaves one that
/// may be.
pub fn postings_may_be_labelled()
    ensures empty { WithoutConstraintsMayBeLabelled }
    ensures posted { PostingsMayBeLabelled }
{}
