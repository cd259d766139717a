//! What is still to be done with the sum of an operand, and the turns of a reading.

use crate::operands::node::{Binary, Unary};
use pi_constraints::Ref;
use pi_prop_made::JoinedSum;

/// What is to be done with a sum once it comes: it is the left side, and the right one is to be read; it is the right side; it
/// is changed.
#[derive(Drop)]
pub enum Frame {
    Left(Binary, Ref),
    Right(Binary, JoinedSum),
    Under(Unary),
}

/// What comes next: an operand is read, or its sum is there.
#[derive(Drop)]
pub enum Turn {
    Read(Ref),
    Have(JoinedSum),
}

/// What comes of a turn: another one, or the sum of the whole.
#[derive(Drop)]
pub enum Next {
    Turn(Turn),
    Done(JoinedSum),
}
