//! Laws of the value of a term under a state's bindings.
ghost use Rattle.pi_constraints.specs.Value.{ValueGoesByVariables, UnboundIsItsOwnValue, BoundHasValueOfItsTerm, ValueHasNoneBound, GroundIsItsOwnValue, ValuesSolve, ValueHasSameInstances, BindingStaysAcyclic, BindingReplaces, NewVariableChangesNoValue, NewVariableStaysAcyclic};

/// The value of a term has the value of each of its variables in place. That of a bound variable is the value of its
/// term, and any other variable is its own. So no bound variable is left, and a ground term is its own value.
pub fn values_replace_throughout()
    ensures variables { ValueGoesByVariables }
    ensures unbound { UnboundIsItsOwnValue }
    ensures bound { BoundHasValueOfItsTerm }
    ensures none_left { ValueHasNoneBound }
    ensures ground { GroundIsItsOwnValue }
{}

/// The values are the most general assignment of terms to variables under which each bound variable is its term.
pub fn values_are_most_general()
    ensures solve { ValuesSolve }
    ensures instances { ValueHasSameInstances }
{}

/// A variable that is bound to a term whose value it does not occur in leaves the bindings without cycles, and puts that
/// value in its place in all values. A variable that is made changes no value.
pub fn bindings_replace_one_variable()
    ensures acyclic { BindingStaysAcyclic }
    ensures replaces { BindingReplaces }
    ensures new_variable { NewVariableChangesNoValue }
    ensures new_acyclic { NewVariableStaysAcyclic }
{}
