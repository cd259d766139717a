//! The turns of a reading: an operand is begun, or a sum comes to what waits for it.
ghost use Rattle.std.specs.Prelude.{◌≡◌, ◌++◌, List, Result, IfOk};
ghost use Rattle.pi_constraints.specs.State.{IsState};
ghost use Rattle.pi_constraints.specs.Store.{Moment};
ghost use Rattle.pi_prop_spec.specs.PostingSums.{Sum};
ghost use Rattle.pi_prop_spec.specs.Steps.{Refusal, Made, Known};
ghost use Rattle.pi_prop_made.specs.declared.making.Making.{Making};
ghost use Rattle.pi_prop_made.specs.Making.{Shows, ShowsReading, AllBelow};
ghost use Rattle.pi_prop_read.specs.declared.operands.frames.Turn.{Turn};
ghost use Rattle.pi_prop_read.specs.OperandFrames.{combined, changed, stacked, IsTurn, ShowsTurn, ShowsNext};
ghost use Rattle.pi_prop_read.specs.Turns.{next_turn, next_of, ShowsWait, BeginsSum};

use crate::operands::nodes::node_at;
use crate::operands::{Binary, Frame, Next, Node, OperandStop, Turn, Unary};
use pi_constraints::{Ref, StateStore};
use pi_effects::Stop;
use pi_lib_builtin::collection_items;
use pi_prop_made::{JoinedSum, Making, SumStop};
use std::alloc::{AllocError, Global};

/// What comes of a turn.
pub(crate) fn take_turn<S: StateStore>(
    alloc: Global,
    s: &S,
    making: &mut Making,
    frames: &mut Vec<Frame>,
    turn: Turn,
) -> Result<Next, OperandStop>
    ensures { (whole : Result (Known Sum) Refusal) → IsState (S.seen s.now).now.state →
        IsTurn (S.seen s.now).now making.old turn frames.old.items whole →
        ShowsNext (S.seen s.now).now making.new result frames.new.items whole }
{
    match turn {
        Turn::Read(operand) => next_turn(begin(alloc, s, frames, operand)),
        Turn::Have(sum) => come(alloc, making, frames, sum),
    }
}

/// An operand is begun: its sum is there, or a part of it is read first.
fn begin<S: StateStore>(
    alloc: Global,
    s: &S,
    frames: &mut Vec<Frame>,
    operand: Ref,
) -> Result<Turn, OperandStop>
    ensures { (a : Making) (whole : Result (Known Sum) Refusal) → IsState (S.seen s.now).now.state →
        IsTurn (S.seen s.now).now a (Turn.Read operand) frames.old.items whole →
        ShowsTurn (S.seen s.now).now a result frames.new.items whole }
{
    match node_at(s, operand) {
        Node::Variable(variable) => match JoinedSum::variable(alloc, variable) {
            Ok(sum) => Ok(Turn::Have(sum)),
            Err(_) => Err(OperandStop::Memory),
        },
        Node::Number(number) => Ok(Turn::Have(JoinedSum::number(alloc, number))),
        Node::One(change, part) => wait(frames, Frame::Under(change), part),
        Node::Two(sign, left, right) => wait(frames, Frame::Left(sign, right), left),
        Node::Sum(items) => begin_sum(alloc, s, frames, items),
        Node::Other => Err(OperandStop::NotLinear(operand)),
    }
}

/// An operand is read, and a frame waits for it.
fn wait(frames: &mut Vec<Frame>, frame: Frame, operand: Ref) -> Result<Turn, OperandStop>
    ensures { ShowsWait result frames.old.items frames.new.items frame operand }
{
    match frames.push(frame) {
        Ok(()) => Ok(Turn::Read(operand)),
        Err(_) => Err(OperandStop::Memory),
    }
}

/// The operands of `sum` wait to be added to 0.
fn begin_sum<S: StateStore>(
    alloc: Global,
    s: &S,
    frames: &mut Vec<Frame>,
    collection: Ref,
) -> Result<Turn, OperandStop>
    ensures { (a : Making) (whole : Result (Known Sum) Refusal) → IsState (S.seen s.now).now.state →
        BeginsSum (S.seen s.now).now a collection frames.old.items whole →
        ShowsTurn (S.seen s.now).now a result frames.new.items whole }
{
    match collection_items(alloc, s, collection) {
        Ok(items) => match push_items(frames, &items) {
            Ok(()) => Ok(Turn::Have(JoinedSum::number(alloc, 0))),
            Err(_) => Err(OperandStop::Memory),
        },
        Err(Stop::Raised(_)) => Err(OperandStop::NotLinear(collection)),
        Err(Stop::Memory) => Err(OperandStop::Memory),
    }
}

/// Operands wait as right sides of `+`, the first one next.
fn push_items(frames: &mut Vec<Frame>, items: &[Ref]) -> Result<(), AllocError>
    ensures { IfOk result (λ _. frames.new.items ≡ frames.old.items ++ stacked items.now) }
{
    for i in (0..items.len()).rev() {
        frames.push(Frame::Left(Binary::Plus, items[i]))?;
    }
    Ok(())
}

/// A sum comes to what waits for it.
fn come(
    alloc: Global,
    making: &mut Making,
    frames: &mut Vec<Frame>,
    sum: JoinedSum,
) -> Result<Next, OperandStop>
    ensures { (w : Moment) (whole : Result (Known Sum) Refusal) → IsTurn w making.old (Turn.Have sum) frames.old.items whole →
        ShowsNext w making.new result frames.new.items whole }
{
    match frames.pop() {
        None => Ok(Next::Done(sum)),
        Some(Frame::Left(sign, right)) => next_turn(wait(frames, Frame::Right(sign, sum), right)),
        Some(Frame::Right(sign, left)) => next_of(combine(alloc, making, sign, left, sum)),
        Some(Frame::Under(change)) => next_of(changed(alloc, making, change, sum)),
    }
}

/// A turn comes next.
fn next_turn(turn: Result<Turn, OperandStop>) -> Result<Next, OperandStop>
    ensures { result ≡ next_turn turn }
{
    match turn {
        Ok(turn) => Ok(Next::Turn(turn)),
        Err(stop) => Err(stop),
    }
}

/// The sum of a step comes next.
fn next_of(step: Result<JoinedSum, SumStop>) -> Result<Next, OperandStop>
    ensures { result ≡ next_of step }
{
    match step {
        Ok(sum) => Ok(Next::Turn(Turn::Have(sum))),
        Err(SumStop::Wide) => Err(OperandStop::Wide),
        Err(SumStop::Memory) => Err(OperandStop::Memory),
    }
}

/// The step of a sign between two operands.
fn combine(
    alloc: Global,
    making: &mut Making,
    sign: Binary,
    left: JoinedSum,
    right: JoinedSum,
) -> Result<JoinedSum, SumStop>
    ensures { (m : Made) → Shows making.old m → AllBelow m.unused left.terms → AllBelow m.unused right.terms →
        ShowsReading (combined sign left right) m making.new result }
{
    match sign {
        Binary::Plus => left.add(right),
        Binary::Minus => left.subtract(right),
        Binary::Times => making.product(alloc, left, right),
    }
}

/// The step of what changes an operand.
fn changed(
    alloc: Global,
    making: &mut Making,
    change: Unary,
    sum: JoinedSum,
) -> Result<JoinedSum, SumStop>
    ensures { (m : Made) → Shows making.old m → AllBelow m.unused sum.terms → ShowsReading (changed change sum) m making.new result }
{
    match change {
        Unary::Positive => Ok(sum.positive()),
        Unary::Negative => sum.negate(),
        Unary::Absolute => making.absolute(alloc, sum),
    }
}
