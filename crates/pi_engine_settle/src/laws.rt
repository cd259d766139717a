//! Laws of the definitions, each a clause of a function that does nothing.
ghost use Rattle.pi_engine_settle.specs.DueLaws.{FollowsItself, FollowsThen, NewVariablesFollow, UnifiedFollows, WithinFollows, NotinFollows, PostedFollows, DueMayPropagate, DueIsALoad, NoneDueIsSettled, SinceStays};

/// What a goal leaves follows the state in which it began: that of evaluation, of a unification, of `::` and `notin` and of a goal
/// that posts, and of several goals one after the other.
pub fn goals_follow()
    ensures itself { FollowsItself }
    ensures then { FollowsThen }
    ensures new { NewVariablesFollow }
    ensures unified { UnifiedFollows }
    ensures within { WithinFollows }
    ensures notin { NotinFollows }
    ensures posted { PostedFollows }
{}

/// A propagation may begin with what is due after a goal; where a constraint is due there is a load; and where none is due, and
/// there are no agents, the state is settled as it stands.
pub fn due_constraints_settle()
    ensures propagate { DueMayPropagate }
    ensures load { DueIsALoad }
    ensures none { NoneDueIsSettled }
{}

/// Where a goal began stays remembered in every call but a return.
pub fn since_stays<M>()
    ensures { SinceStays M }
{}
