//! The value of an operation, or its fault.
ghost use Rattle.std.specs.Prelude.{◌≡◌};
ghost use Rattle.pi_effects.specs.Value.{value_of};

use crate::arith_fault::ArithFault;
use crate::operation::Op;
use crate::{bits, power, quotients, shifts, sums};

/// The value of an operation at integers of 128 bits with a sign, or its one fault.
///
/// The operations are Picat's (A User's Guide to Picat); that integers end at 128 bits, the
/// distances of shifts and the faults are own. The one-place operations, `Neg`, `Not`, `Abs` and
/// `Sign`, leave `b` unread.
#[tactic(auto, unfolding(crate::specs::Value::value_of))]
pub fn evaluate(op: Op, a: i128, b: i128) -> Result<i128, ArithFault>
    ensures { result ≡ value_of op a b }
{
    match op {
        Op::Add => sums::add(a, b),
        Op::Sub => sums::subtract(a, b),
        Op::Mul => sums::multiply(a, b),
        Op::Quot => quotients::towards_zero(a, b),
        Op::Floor => quotients::down(a, b),
        Op::Ceil => quotients::up(a, b),
        Op::Mod => quotients::modulo(a, b),
        Op::Rem => quotients::remainder(a, b),
        Op::Pow => power::raise(a, b),
        Op::ShiftLeft => shifts::left(a, b),
        Op::ShiftRight => shifts::right(a, b),
        Op::And => Ok(bits::and(a, b)),
        Op::Or => Ok(bits::or(a, b)),
        Op::Xor => Ok(bits::xor(a, b)),
        Op::Neg => sums::negate(a),
        Op::Not => Ok(bits::not(a)),
        Op::Abs => sums::magnitude(a),
        Op::Sign => Ok(a.signum()),
    }
}
