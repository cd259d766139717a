//! Laws of calm states.
ghost use Rattle.pi_settling.specs.CalmLaws.{EmptyIsCalm, WithoutConstraintsIsCalm, StableIsCalm, CalmGoesByVariables, EventsKeepCalm, SettledIsCalm, NewVariablesAddUp, NewVariablesKeepCalm, SlotMakesVariables, EvaluationMakesVariables, EvaluationOfAllMakesVariables, EvaluationKeepsCalm, EvaluationOfAllKeepsCalm, CalmIsStable, CalmIsSettled, NewVariablesAreSettled, WithoutConstraintsIsSettled, UnifiedKeepsTheRest, UnifiedMaySettle, WithinMaySettle, NotinMaySettle, PostedMaySettle, ConfinedMaySettle, StableKeepsFollowed, SettledKeepsFollowed, WithinKeepsFollowed, NotinKeepsFollowed, PostedKeepsFollowed, NewVariablesKeepFollowed, ConfinedKeepsFollowed, ConstraintsKeepFollowed};

/// The empty state is calm, and one without constraints. Whether one is calm goes by its variables and its constraints alone.
pub fn states_are_calm()
    ensures empty { EmptyIsCalm }
    ensures bare { WithoutConstraintsIsCalm }
    ensures variables { CalmGoesByVariables }
{}

/// Each stable state is calm, also with the events of its goal, and so is what settling comes to.
pub fn settling_leaves_calm()
    ensures stable { StableIsCalm }
    ensures events { EventsKeepCalm }
    ensures settled { SettledIsCalm }
{}

/// New variables keep a state calm, and evaluation makes new variables alone.
pub fn evaluation_keeps_calm()
    ensures adds_up { NewVariablesAddUp }
    ensures new { NewVariablesKeepCalm }
    ensures slot { SlotMakesVariables }
    ensures makes { EvaluationMakesVariables }
    ensures makes_all { EvaluationOfAllMakesVariables }
    ensures term { EvaluationKeepsCalm }
    ensures terms { EvaluationOfAllKeepsCalm }
{}

/// A calm state is its own stable state, and settling it from itself, or from before its last variables were made, adds nothing.
/// Without constraints and agents settling adds nothing to any state.
pub fn settling_adds_nothing()
    ensures stable { CalmIsStable }
    ensures settled { CalmIsSettled }
    ensures new { NewVariablesAreSettled }
    ensures bare { WithoutConstraintsIsSettled }
{}

/// What a unification and the goals of constraints leave may settle where the state before might, and agents and what waits are
/// as they were. So it is of the state in which a labelling begins.
pub fn goals_keep_settling()
    ensures unified { UnifiedMaySettle }
    ensures rest { UnifiedKeepsTheRest }
    ensures within { WithinMaySettle }
    ensures notin { NotinMaySettle }
    ensures posted { PostedMaySettle }
    ensures confined { ConfinedMaySettle }
{}

/// What a term is followed to stays where that is no variable, in every state: by settling, by the goals of constraints, and by
/// what these do to a state.
pub fn followed_terms_stay()
    ensures stable { StableKeepsFollowed }
    ensures settled { SettledKeepsFollowed }
    ensures within { WithinKeepsFollowed }
    ensures notin { NotinKeepsFollowed }
    ensures posted { PostedKeepsFollowed }
    ensures new { NewVariablesKeepFollowed }
    ensures confined { ConfinedKeepsFollowed }
    ensures constraints { ConstraintsKeepFollowed }
{}
