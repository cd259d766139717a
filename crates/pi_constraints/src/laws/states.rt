//! Laws of states.
ghost use Rattle.pi_constraints.specs.StateLaws.{EmptyIsAState, NewVariableKeepsAState, BindingKeepsAState, BindingAtRootKeepsAState, DomainKeepsAState, ConstraintKeepsAState, AgentKeepsAState, EndedKeepsAState, WaitingKeepsAState, TakenKeepsAState};

/// A run begins with a state, and each change that a store makes keeps it one, under the condition of its call: a new
/// variable, a binding, a domain, a constraint, an agent, the end of an agent, an activation that waits or is taken.
pub fn changes_keep_states()
    ensures empty { EmptyIsAState }
    ensures new_variable { NewVariableKeepsAState }
    ensures binding { BindingKeepsAState }
    ensures binding_at_root { BindingAtRootKeepsAState }
    ensures domain { DomainKeepsAState }
    ensures constraint { ConstraintKeepsAState }
    ensures agent { AgentKeepsAState }
    ensures ended { EndedKeepsAState }
    ensures waiting { WaitingKeepsAState }
    ensures taken { TakenKeepsAState }
{}
