//! The turns of a reading: an expression is begun, or a truth comes to what waits for it.
ghost use Rattle.std.specs.Prelude.{◌≡◌, ◌≤◌, Result};
ghost use Rattle.pi_constraints.specs.declared.constraint.Item.{Item};
ghost use Rattle.pi_constraints.specs.State.{IsState, next};
ghost use Rattle.pi_constraints.specs.Store.{Moment};
ghost use Rattle.pi_prop_spec.specs.Operands.{relation};
ghost use Rattle.pi_prop_spec.specs.Steps.{Refusal, Made, Known};
ghost use Rattle.pi_prop_spec.specs.Truths.{read_truth};
ghost use Rattle.pi_prop_made.specs.Making.{Shows};
ghost use Rattle.pi_prop_read.specs.Refs.{IsThere, operand_at};
ghost use Rattle.pi_prop_read.specs.Relations.{comparison_of};
ghost use Rattle.pi_prop_read.specs.declared.truths.frames.TruthTurn.{TruthTurn};
ghost use Rattle.pi_prop_read.specs.TruthFrames.{ShowsTruthNumber, ShowsWait, next_turn, IsTurn, ShowsTurn, ShowsNext, ShowsMade};

use crate::operands::OperandStop;
use crate::relations::{Comparison, read_relation};
use crate::truths::frames::{TruthFrame, TruthNext, TruthTurn};
use crate::truths::joined::{truth_of_joined, truth_of_negation};
use crate::truths::nodes::{TruthNode, truth_node_at};
use pi_constraints::{Item, Ref, StateStore};
use pi_prop_made::Making;
use std::alloc::Global;

/// What comes of a turn.
pub(crate) fn take_turn<S: StateStore>(
    alloc: Global,
    s: &S,
    making: &mut Making,
    frames: &mut Vec<TruthFrame>,
    turn: TruthTurn,
) -> Result<TruthNext, OperandStop>
    ensures { (whole : Result (Known Item) Refusal) → IsState (S.seen s.now).now.state →
        IsTurn (S.seen s.now).now making.old turn frames.old.items whole →
        ShowsNext (S.seen s.now).now making.new result frames.new.items whole }
{
    match turn {
        TruthTurn::Read(term) => next_turn(begin(alloc, s, making, frames, term)),
        TruthTurn::Have(truth) => come(alloc, making, frames, truth),
    }
}

/// An expression is begun: its truth is there, or a part of it is read first.
fn begin<S: StateStore>(
    alloc: Global,
    s: &S,
    making: &mut Making,
    frames: &mut Vec<TruthFrame>,
    term: Ref,
) -> Result<TruthTurn, OperandStop>
    ensures { (whole : Result (Known Item) Refusal) → IsState (S.seen s.now).now.state →
        IsTurn (S.seen s.now).now making.old (TruthTurn.Read term) frames.old.items whole →
        ShowsTurn (S.seen s.now).now making.new result frames.new.items whole }
{
    match truth_node_at(s, term) {
        TruthNode::Variable(variable) => match making.post_truth(alloc, variable) {
            Ok(()) => Ok(TruthTurn::Have(Item::Var(variable))),
            Err(_) => Err(OperandStop::Memory),
        },
        TruthNode::Number(number) => match truth_number(number) {
            Some(truth) => Ok(TruthTurn::Have(truth)),
            None => Err(OperandStop::NotLinear(term)),
        },
        TruthNode::Relation(comparison, left, right) => {
            match relation_truth(alloc, s, making, comparison, left, right) {
                Ok(truth) => Ok(TruthTurn::Have(truth)),
                Err(stop) => Err(stop),
            }
        }
        TruthNode::Negation(part) => wait(frames, TruthFrame::Negation, part),
        TruthNode::Joined(connective, left, right) => {
            wait(frames, TruthFrame::Left(connective, right), left)
        }
        TruthNode::Other => Err(OperandStop::NotLinear(term)),
    }
}

/// An expression is read, and a frame waits for it.
fn wait(
    frames: &mut Vec<TruthFrame>,
    frame: TruthFrame,
    term: Ref,
) -> Result<TruthTurn, OperandStop>
    ensures { ShowsWait result frames.old.items frames.new.items frame term }
{
    match frames.push(frame) {
        Ok(()) => Ok(TruthTurn::Read(term)),
        Err(_) => Err(OperandStop::Memory),
    }
}

/// A turn comes next.
fn next_turn(turn: Result<TruthTurn, OperandStop>) -> Result<TruthNext, OperandStop>
    ensures { result ≡ next_turn turn }
{
    match turn {
        Ok(turn) => Ok(TruthNext::Turn(turn)),
        Err(stop) => Err(stop),
    }
}

/// An integer is its own truth where it is 0 or 1.
fn truth_number(number: i128) -> Option<Item>
    ensures { ShowsTruthNumber result number }
{
    if number == 0 {
        Some(Item::Int(0))
    } else if number == 1 {
        Some(Item::Int(1))
    } else {
        None
    }
}

/// The truth of a relation.
fn relation_truth<S: StateStore>(
    alloc: Global,
    s: &S,
    making: &mut Making,
    comparison: Comparison,
    left: Ref,
    right: Ref,
) -> Result<Item, OperandStop>
    ensures { (m : Made) → IsState (S.seen s.now).now.state → IsThere (S.seen s.now).now left → IsThere (S.seen s.now).now right →
        Shows making.old m → next (S.seen s.now).now.state ≤ m.unused →
        ShowsMade (S.seen s.now).now making.new result
        (read_truth (relation (comparison_of comparison) (operand_at (S.seen s.now).now left)
        (operand_at (S.seen s.now).now right)) m) }
{
    match read_relation(alloc, s, making, comparison, left, right) {
        Ok(relation) => match making.truth_of_standing(alloc, relation.how, &relation.sum) {
            Ok(truth) => Ok(truth),
            Err(_) => Err(OperandStop::Memory),
        },
        Err(stop) => Err(stop),
    }
}

/// A truth comes to what waits for it.
fn come(
    alloc: Global,
    making: &mut Making,
    frames: &mut Vec<TruthFrame>,
    truth: Item,
) -> Result<TruthNext, OperandStop>
    ensures { (w : Moment) (whole : Result (Known Item) Refusal) →
        IsTurn w making.old (TruthTurn.Have truth) frames.old.items whole → ShowsNext w making.new result frames.new.items whole }
{
    match frames.pop() {
        None => Ok(TruthNext::Done(truth)),
        Some(TruthFrame::Left(connective, right)) => {
            next_turn(wait(frames, TruthFrame::Right(connective, truth), right))
        }
        Some(TruthFrame::Right(connective, left)) => {
            match truth_of_joined(alloc, making, connective, left, truth) {
                Ok(truth) => Ok(TruthNext::Turn(TruthTurn::Have(truth))),
                Err(_) => Err(OperandStop::Memory),
            }
        }
        Some(TruthFrame::Negation) => match truth_of_negation(alloc, making, truth) {
            Ok(truth) => Ok(TruthNext::Turn(TruthTurn::Have(truth))),
            Err(_) => Err(OperandStop::Memory),
        },
    }
}
