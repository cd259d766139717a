//! Why an operand isn't read.

use pi_constraints::Ref;

/// Why an operand isn't read.
#[derive(Clone, Copy)]
pub enum OperandStop {
    /// This term can't stand where it does.
    NotLinear(Ref),
    /// A coefficient or the constant of a step needs more than 128 bits.
    Wide,
    /// Memory was wanted.
    Memory,
}
