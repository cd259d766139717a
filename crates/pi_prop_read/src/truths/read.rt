//! Boolean expressions of constraints.
ghost use Rattle.std.specs.Prelude.{◌≤◌, pos, IfOk, Result};
ghost use Rattle.pi_constraints.specs.declared.constraint.Item.{Item};
ghost use Rattle.pi_constraints.specs.declared.constraint.Rel.{Rel};
ghost use Rattle.pi_constraints.specs.State.{IsState, next};
ghost use Rattle.pi_prop_spec.specs.PostingSums.{of_number, of_item, difference};
ghost use Rattle.pi_prop_spec.specs.Operands.{negation, joined};
ghost use Rattle.pi_prop_spec.specs.Steps.{Refusal, Made, Known, then};
ghost use Rattle.pi_prop_spec.specs.Relations.{posts_standing};
ghost use Rattle.pi_prop_spec.specs.Truths.{read_truth};
ghost use Rattle.pi_prop_made.specs.Making.{Shows, Reads};
ghost use Rattle.pi_prop_read.specs.Refs.{IsThere};
ghost use Rattle.pi_prop_read.specs.TruthNodes.{connective_of, boolean_at};
ghost use Rattle.pi_prop_read.specs.TruthFrames.{come, FrameIs, IsTurn, ShowsMade};

use crate::operands::OperandStop;
use crate::truths::frames::{TruthFrame, TruthNext, TruthTurn};
use crate::truths::nodes::Connective;
use crate::truths::sums::less_one;
use crate::truths::turns::take_turn;
use pi_constraints::{Item, Ref, StateStore};
use pi_prop_made::{Making, ToZero};
use std::alloc::{AllocError, Global};

/// The truth of a Boolean expression: an item that is 1 where it is so and 0 where it isn't, with the new variables and the
/// constraints that make it so. It is read with a stack of what waits for a truth. A User's Guide to Picat, 'Constraints'.
pub fn read_truth<S: StateStore>(
    alloc: Global,
    s: &S,
    making: &mut Making,
    term: Ref,
) -> Result<Item, OperandStop>
    ensures { (m : Made) → IsState (S.seen s.now).now.state → IsThere (S.seen s.now).now term → Shows making.old m →
        next (S.seen s.now).now.state ≤ m.unused → ShowsMade (S.seen s.now).now making.new result
        (read_truth (boolean_at (S.seen s.now).now term) m) }
{
    let mut frames = Vec::new(alloc);
    take_turns(alloc, s, making, &mut frames, TruthTurn::Read(term))
}

/// The truth of `#~ X`, by its part.
pub fn read_negation<S: StateStore>(
    alloc: Global,
    s: &S,
    making: &mut Making,
    part: Ref,
) -> Result<Item, OperandStop>
    ensures { (m : Made) → IsState (S.seen s.now).now.state → IsThere (S.seen s.now).now part → Shows making.old m →
        next (S.seen s.now).now.state ≤ m.unused → ShowsMade (S.seen s.now).now making.new result
        (read_truth (negation (boolean_at (S.seen s.now).now part)) m) }
{
    read_under(alloc, s, making, TruthFrame::Negation, part)
}

/// The truth of two expressions that are joined, by these. The left one is read before the right one.
pub fn read_joined<S: StateStore>(
    alloc: Global,
    s: &S,
    making: &mut Making,
    connective: Connective,
    left: Ref,
    right: Ref,
) -> Result<Item, OperandStop>
    ensures { (m : Made) → IsState (S.seen s.now).now.state → IsThere (S.seen s.now).now left →
        IsThere (S.seen s.now).now right → Shows making.old m → next (S.seen s.now).now.state ≤ m.unused →
        ShowsMade (S.seen s.now).now making.new result (read_truth (joined (connective_of connective)
        (boolean_at (S.seen s.now).now left) (boolean_at (S.seen s.now).now right)) m) }
{
    read_under(alloc, s, making, TruthFrame::Left(connective, right), left)
}

/// What a frame makes of the truth of an expression.
fn read_under<S: StateStore>(
    alloc: Global,
    s: &S,
    making: &mut Making,
    frame: TruthFrame,
    term: Ref,
) -> Result<Item, OperandStop>
    ensures { (m : Made) → IsState (S.seen s.now).now.state → IsThere (S.seen s.now).now term →
        FrameIs (S.seen s.now).now frame → Shows making.old m → next (S.seen s.now).now.state ≤ m.unused →
        ShowsMade (S.seen s.now).now making.new result
        (then (read_truth (boolean_at (S.seen s.now).now term)) (come (S.seen s.now).now frame) m) }
{
    let mut frames = Vec::new(alloc);
    match frames.push(frame) {
        Ok(()) => take_turns(alloc, s, making, &mut frames, TruthTurn::Read(term)),
        Err(_) => Err(OperandStop::Memory),
    }
}

/// The truth to which a turn and what waits come.
fn take_turns<S: StateStore>(
    alloc: Global,
    s: &S,
    making: &mut Making,
    frames: &mut Vec<TruthFrame>,
    first: TruthTurn,
) -> Result<Item, OperandStop>
    ensures { (whole : Result (Known Item) Refusal) → IsState (S.seen s.now).now.state →
        IsTurn (S.seen s.now).now making.old first frames.old.items whole →
        ShowsMade (S.seen s.now).now making.new result whole }
{
    let mut turn = first;
    for _ in 0..u64::MAX {
        match take_turn(alloc, s, making, frames, turn)? {
            TruthNext::Turn(following) => turn = following,
            TruthNext::Done(truth) => return Ok(truth),
        }
    }
    Err(OperandStop::Memory)
}

/// A truth is 1.
pub fn post_so(alloc: Global, making: &mut Making, truth: Item) -> Result<(), AllocError>
    ensures { IfOk result (λ _. (m : Made) → Shows making.old m →
        Reads (posts_standing Rel.Equal (difference (of_item truth) (of_number (pos 1)))) m tt making.new) }
{
    let sum = less_one(alloc, truth)?;
    making.post_standing(alloc, ToZero::Equal, &sum)?;
    Ok(())
}
