//! Relations between operands.
ghost use Rattle.std.specs.Prelude.{◌≡◌, ◌≤◌};
ghost use Rattle.pi_constraints.specs.State.{IsState, next};
ghost use Rattle.pi_prop_spec.specs.Steps.{Made};
ghost use Rattle.pi_prop_spec.specs.Relations.{sides_apart, read_relation};
ghost use Rattle.pi_prop_made.specs.Steps.{ShowsStep};
ghost use Rattle.pi_prop_made.specs.Making.{Shows};
ghost use Rattle.pi_prop_read.specs.Refs.{IsThere, operand_at};
ghost use Rattle.pi_prop_read.specs.Relations.{comparison_of, Means, ShowsRelation};

use crate::operands::{OperandStop, read_operand};
use pi_constraints::{Ref, StateStore};
use pi_prop_made::{JoinedSum, Making, SumStop, ToZero};
use std::alloc::Global;

/// How two operands are compared. A User's Guide to Picat, 'Constraints'.
#[derive(Clone, Copy)]
pub enum Comparison {
    Equal,
    Unequal,
    Less,
    AtMost,
    Greater,
    AtLeast,
}

impl Comparison {
    /// How the difference of the sides stands to 0.
    fn to_zero(self) -> ToZero
        ensures { Means result (comparison_of self) }
    {
        match self {
            Comparison::Equal => ToZero::Equal,
            Comparison::Unequal => ToZero::Unequal,
            Comparison::Less => ToZero::Below,
            Comparison::AtMost => ToZero::AtMost,
            Comparison::Greater => ToZero::Below,
            Comparison::AtLeast => ToZero::AtMost,
        }
    }

    /// The difference of the sides: of `#>` and `#>=` that of the right side and the left one.
    fn apart(self, left: JoinedSum, right: JoinedSum) -> Result<JoinedSum, SumStop>
        ensures { ShowsStep result (sides_apart (comparison_of self) left right) }
    {
        match self {
            Comparison::Equal => left.subtract(right),
            Comparison::Unequal => left.subtract(right),
            Comparison::Less => left.subtract(right),
            Comparison::AtMost => left.subtract(right),
            Comparison::Greater => right.subtract(left),
            Comparison::AtLeast => right.subtract(left),
        }
    }
}

/// A sum, and how it stands to 0.
#[derive(Drop)]
pub struct Relation {
    pub how: ToZero,
    pub sum: JoinedSum,
}

/// The sum of a relation, and how it stands to 0. The left operand is read before the right one. A User's Guide to Picat,
/// 'Constraints'.
pub fn read_relation<S: StateStore>(
    alloc: Global,
    s: &S,
    making: &mut Making,
    comparison: Comparison,
    left: Ref,
    right: Ref,
) -> Result<Relation, OperandStop>
    ensures { (m : Made) → IsState (S.seen s.now).now.state → IsThere (S.seen s.now).now left → IsThere (S.seen s.now).now right →
        Shows making.old m → next (S.seen s.now).now.state ≤ m.unused →
        ShowsRelation (S.seen s.now).now making.new result
        (read_relation (comparison_of comparison) (operand_at (S.seen s.now).now left) (operand_at (S.seen s.now).now right) m) }
{
    let left = read_operand(alloc, s, making, left)?;
    let right = match read_operand(alloc, s, making, right) {
        Ok(right) => right,
        Err(stop) => {
            drop(left);
            return Err(stop);
        }
    };
    match comparison.apart(left, right) {
        Ok(sum) => Ok(Relation {
            how: comparison.to_zero(),
            sum,
        }),
        Err(SumStop::Wide) => Err(OperandStop::Wide),
        Err(SumStop::Memory) => Err(OperandStop::Memory),
    }
}
