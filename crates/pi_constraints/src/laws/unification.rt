//! Laws of unification, and of the common values of domains.
ghost use Rattle.pi_constraints.specs.Domain.{CommonIsADomain, CommonHasTheValuesOfBoth};
ghost use Rattle.pi_constraints.specs.Unify.{NoPairsLeaveTheState, FirstPairComesFirst, UnifiedHasTheAssignments, NotUnifiedHasNone, UnifiedAreOne, UnifiedIsAState, UnifiedGrows, HigherIsBoundToLower};

/// Pairs are taken from the left, each followed at its roots in the state that those before it made.
pub fn pairs_are_taken_from_the_left()
    ensures none { NoPairsLeaveTheState }
    ensures first { FirstPairComesFirst }
{}

/// The state after a unification has just those assignments of the state before under which both terms are one, and
/// there is no state after exactly where there is no such assignment. So no assignment is lost or gained.
pub fn unification_is_most_general()
    ensures assignments { UnifiedHasTheAssignments }
    ensures none { NotUnifiedHasNone }
    ensures one { UnifiedAreOne }
{}

/// The state after a unification is a state, and has the bindings before and maybe more; its domains have no other
/// values; a variable without a domain may get that of one that it is made equal to; constraints, agents and what waits
/// are the same. Of two variables the higher is bound to the lower.
pub fn unification_grows_a_state()
    ensures state { UnifiedIsAState }
    ensures grows { UnifiedGrows }
    ensures lower { HigherIsBoundToLower }
{}

/// What two domains have in common is a domain with the values of both.
pub fn domains_have_common_values()
    ensures domain { CommonIsADomain }
    ensures values { CommonHasTheValuesOfBoth }
{}
