//! Laws of one-way matching.
ghost use Rattle.pi_constraints.specs.Match.{MatchFills, MatchIsLeast, MatchFails, VariableWantsSlot, HeadMatchFills, HeadMatchIsLeast, HeadMatchFails, SlotTakesIdentical};
ghost use Rattle.pi_constraints.specs.HeadMatch.{MatchesByValue, HeadMatchesByValue};

/// A match is the slots with just the pattern's slots filled so that the pattern is the term. There is at most one, each
/// way to make the pattern the term extends it, and matching fails exactly where there is no way. A variable of the term
/// matches only a slot.
pub fn matches_are_least()
    ensures fills { MatchFills }
    ensures least { MatchIsLeast }
    ensures fails { MatchFails }
    ensures variable { VariableWantsSlot }
{}

/// The same of the patterns of a head and the arguments of a call: there is at most one match, the least one, and none
/// exactly where there is no way to make each pattern its argument. A slot that occurs twice takes identical terms.
pub fn head_matches_are_least()
    ensures fills { HeadMatchFills }
    ensures least { HeadMatchIsLeast }
    ensures fails { HeadMatchFails }
    ensures identical { SlotTakesIdentical }
{}

/// A match in a state goes by values: whether there is one, and the values of what the slots hold after it, is what the
/// values of the term and of the slots say. So it is of a whole head.
pub fn matches_go_by_value()
    ensures patterns { MatchesByValue }
    ensures heads { HeadMatchesByValue }
{}
