//! The options of a labelling.
use pi_constraints::Ref;

/// Which variable is picked: the first unbound one, the last, or the leftmost of those with the smallest domain. A User's
/// Guide to Picat, 'Constraints'.
#[derive(Clone, Copy)]
pub enum VariableWord {
    Forward,
    Backward,
    Ff,
}

/// Which alternatives it has: its values ascending or descending, or the halves of its domain, the lower or the upper first.
#[derive(Clone, Copy)]
pub enum ValueWord {
    Up,
    Down,
    Split,
    ReverseSplit,
}

/// The expression of which a value is wanted: the greatest, or the least.
#[derive(Clone, Copy)]
pub struct Objective {
    pub greatest: bool,
    pub expression: Ref,
}

/// The options of a call of `solve`.
#[derive(Clone, Copy)]
pub struct Options {
    pub variable: VariableWord,
    pub value: ValueWord,
    pub objective: Option<Objective>,
}
