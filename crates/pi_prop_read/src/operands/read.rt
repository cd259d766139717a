//! Operands of constraints.
ghost use Rattle.std.specs.Prelude.{◌≤◌};
ghost use Rattle.pi_constraints.specs.State.{IsState, next};
ghost use Rattle.pi_prop_spec.specs.Steps.{Made, read_operand};
ghost use Rattle.pi_prop_made.specs.Making.{Shows};
ghost use Rattle.pi_prop_read.specs.Refs.{IsThere, operand_at};
ghost use Rattle.pi_prop_read.specs.OperandFrames.{ShowsOperand};

use crate::operands::turns::take_turn;
use crate::operands::{Next, OperandStop, Turn};
use pi_constraints::{Ref, StateStore};
use pi_prop_made::{JoinedSum, Making};
use std::alloc::Global;

/// The sum that an operand is, with the new variables and the constraints of its products and absolute values. It is read
/// with a stack of what waits for a sum. A User's Guide to Picat, 'Constraints'.
pub fn read_operand<S: StateStore>(
    alloc: Global,
    s: &S,
    making: &mut Making,
    operand: Ref,
) -> Result<JoinedSum, OperandStop>
    ensures { (m : Made) → IsState (S.seen s.now).now.state → IsThere (S.seen s.now).now operand → Shows making.old m →
        next (S.seen s.now).now.state ≤ m.unused → ShowsOperand (S.seen s.now).now making.new result
        (read_operand (operand_at (S.seen s.now).now operand) m) }
{
    let mut frames = Vec::new(alloc);
    let mut turn = Turn::Read(operand);
    for _ in 0..u64::MAX {
        match take_turn(alloc, s, making, &mut frames, turn)? {
            Next::Turn(following) => turn = following,
            Next::Done(sum) => return Ok(sum),
        }
    }
    Err(OperandStop::Memory)
}
