//! The goals of constraints. A User's Guide to Picat, 'Constraints'.
use pi_prop_read::{Comparison, Connective};

/// A goal of constraints with one argument.
#[derive(Clone, Copy)]
pub enum GoalOfOne {
    /// `#~`
    Negation,
    /// `all_different`
    Different,
    /// `all_distinct`
    Distinct,
}

/// A goal of constraints with two arguments.
#[derive(Clone, Copy)]
pub enum GoalOfTwo {
    /// `::`
    Within,
    /// `notin`
    NotIn,
    /// A relation of two operands.
    Relation(Comparison),
    /// Two Boolean expressions that are joined.
    Joined(Connective),
}

/// A goal of constraints, by its number of arguments.
#[derive(Clone, Copy)]
pub enum ConstraintGoal {
    OfOne(GoalOfOne),
    OfTwo(GoalOfTwo),
    /// `element`
    Element,
}
