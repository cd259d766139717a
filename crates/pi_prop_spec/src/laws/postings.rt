//! Laws of postings.
ghost use Rattle.pi_prop_spec.specs.PostingLaws.{SumsAdd, SumsScale, SumsStayJoined, CoefficientsAdd, CoefficientsScale, CoefficientsTellTerms, OperandsHaveTheirValues, PostingsSayTheSame, NewValuesAreGiven, PostingsMayBePosted};

/// Joined sums add and scale as what they come to, and stay joined.
pub fn sums_are_joined()
    ensures add { SumsAdd }
    ensures scale { SumsScale }
    ensures joined { SumsStayJoined }
{}

/// Joined terms are told by the coefficients of all variables, and these add and scale as the sums do.
pub fn terms_are_coefficients()
    ensures add { CoefficientsAdd }
    ensures scale { CoefficientsScale }
    ensures tell { CoefficientsTellTerms }
{}

/// An assignment of the variables that were made makes a goal so just where it extends, by values of the new variables, to one under
/// which all holds that the goal posts. These values are given by the others. An operand alone reads to a sum with its value.
pub fn postings_say_the_same()
    ensures operands { OperandsHaveTheirValues }
    ensures says { PostingsSayTheSame }
    ensures given { NewValuesAreGiven }
{}

/// What a goal posts keeps the limits of constraints, and speaks of variables that were made and of its new ones alone.
pub fn postings_may_be_posted()
    ensures may { PostingsMayBePosted }
{}
