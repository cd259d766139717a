//! What a term is as an operand, at its root.

use pi_constraints::Ref;

/// What joins two operands.
#[derive(Clone, Copy)]
pub enum Binary {
    Plus,
    Minus,
    Times,
}

/// What changes one operand.
#[derive(Clone, Copy)]
pub enum Unary {
    Positive,
    Negative,
    Absolute,
}

/// What a term is as an operand. `sum` has the term of its items.
#[derive(Clone, Copy)]
pub enum Node {
    Variable(u64),
    Number(i128),
    One(Unary, Ref),
    Two(Binary, Ref, Ref),
    Sum(Ref),
    Other,
}
