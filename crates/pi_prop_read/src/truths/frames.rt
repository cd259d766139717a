//! What is still to be done with the truth of an expression, and the turns of a reading.

use crate::truths::nodes::Connective;
use pi_constraints::{Item, Ref};

/// What is to be done with a truth once it comes: it is the left one, and the right one is to be read; it is the right one; it
/// is that of the expression behind `#~`.
#[derive(Clone, Copy)]
pub enum TruthFrame {
    Left(Connective, Ref),
    Right(Connective, Item),
    Negation,
}

/// What comes next: an expression is read, or its truth is there.
#[derive(Clone, Copy)]
pub enum TruthTurn {
    Read(Ref),
    Have(Item),
}

/// What comes of a turn: another one, or the truth of the whole.
#[derive(Clone, Copy)]
pub enum TruthNext {
    Turn(TruthTurn),
    Done(Item),
}
