//! Laws of settling as a function.
ghost use Rattle.pi_settling.specs.SettleLaws.{GivesTheStableState, FindsWhatIsEmptied, GivesNoOther, FindsEachThatIsEmptied, SettledSettles, CalmIsSettled, LeavesTheStableState, LeavesNothing, SettlingMakesNoVariable, FollowedStay, FollowedToVariables, SettlingKeepsTheRest};

/// The stable state is computed, or it is found that there is none. So there is a way to settle, and it makes nothing of a
/// calm state that is settled from itself.
pub fn settling_is_computed()
    ensures stable { GivesTheStableState }
    ensures emptied { FindsWhatIsEmptied }
    ensures other { GivesNoOther }
    ensures each { FindsEachThatIsEmptied }
    ensures settles { SettledSettles }
    ensures calm { CalmIsSettled }
{}

/// A settlement leaves the stable state, with the activations of the goal's events; and nothing where there is none.
pub fn settlements_leave_stable_states()
    ensures left { LeavesTheStableState }
    ensures nothing { LeavesNothing }
{}

/// In every state, also in one that no store has, settling changes variables with domains alone: none is made or lost; what a
/// term is followed to stays where that is no variable, and is the same variable or an integer where it is one.
pub fn settling_keeps_what_is_followed()
    ensures count { SettlingMakesNoVariable }
    ensures followed { FollowedStay }
    ensures variables { FollowedToVariables }
    ensures rest { SettlingKeepsTheRest }
{}
