//! Laws of labelling.
ghost use Rattle.pi_settling.specs.KeepLaws.{AnswersPartTheSolutions, LabellingEnds, LabellingKeepsSolutions};
ghost use Rattle.pi_settling.specs.LabelLaws.{AlternativesPartTheDomain, LeftIsADomain, LeftIsAllowed, NarrowingKeepsSolutions, ConfinedHaveDomains, ConfiningBindsNothing, LabellingNothing, LabellingDoesMore, SolvingDoesMore, FirstIsOne, FirstOfAll, SatSolvedIsOne};

/// The alternatives of a variable part its domain: each value is allowed by one of them, and by no other, and that one leaves
/// it. What one leaves is a domain, and a state that it narrows has
/// those solutions whose value it allows.
pub fn alternatives_part_the_domain()
    ensures parts { AlternativesPartTheDomain }
    ensures left { LeftIsAllowed }
    ensures domain { LeftIsADomain }
    ensures solutions { NarrowingKeepsSolutions }
{}

/// Where labelling begins each of its unbound variables has a domain, and nothing more is bound.
pub fn variables_are_confined()
    ensures domains { ConfinedHaveDomains }
    ensures bindings { ConfiningBindsNothing }
{}

/// Labelling adds nothing where no variable is unbound, and does the same and maybe more at a greater depth, with an objective too.
pub fn labelling_does_more()
    ensures nothing { LabellingNothing }
    ensures labels { LabellingDoesMore }
    ensures rounds { SolvingDoesMore }
{}

/// There is one first assignment at most, the first of all that extend to a solution, and so `sat_solve` comes to one trace at most.
pub fn first_assignments_are_one()
    ensures one { FirstIsOne }
    ensures of_all { FirstOfAll }
    ensures sat { SatSolvedIsOne }
{}

/// A labelling comes to its end at some depth. There its answers have together just the solutions of the state in which it
/// began, and each solution is one of one answer.
pub fn labelling_keeps_solutions()
    ensures ends { LabellingEnds }
    ensures kept { LabellingKeepsSolutions }
    ensures once { AnswersPartTheSolutions }
{}
