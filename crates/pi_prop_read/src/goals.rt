//! What goals of constraints make.
ghost use Rattle.std.specs.Prelude.{◌≤◌};
ghost use Rattle.pi_constraints.specs.State.{IsState, next};
ghost use Rattle.pi_prop_spec.specs.Steps.{Made};
ghost use Rattle.pi_prop_spec.specs.Relations.{posts_relation};
ghost use Rattle.pi_prop_spec.specs.Operands.{Boolean};
ghost use Rattle.pi_prop_spec.specs.Truths.{read_truth, posts_truth};
ghost use Rattle.pi_prop_spec.specs.Lists.{posts_different, posts_distinct, posts_element};
ghost use Rattle.pi_prop_spec.specs.Postings.{read_goal};
ghost use Rattle.pi_prop_made.specs.Making.{Shows};
ghost use Rattle.pi_prop_read.specs.Refs.{IsThere, value_at, operand_at};
ghost use Rattle.pi_prop_read.specs.Relations.{comparison_of};
ghost use Rattle.pi_prop_read.specs.TruthNodes.{boolean_at};
ghost use Rattle.pi_prop_read.specs.GoalNodes.{goal_at};
ghost use Rattle.pi_prop_read.specs.Items.{read_listed, ShowsEach};
ghost use Rattle.pi_constraints.specs.Store.{Moment};
ghost use Rattle.pi_prop_read.specs.TruthFrames.{ShowsMade};
ghost use Rattle.pi_prop_read.specs.Goals.{ShowsGoal};
ghost use Rattle.pi_prop_read.specs.Called.{goal_as, HasParts};

use crate::called::PostingGoal;
use crate::items::{collected, item_at, items_at};
use crate::nodes::{GoalNode, goal_node_at};
use crate::operands::OperandStop;
use crate::relations::{Comparison, read_relation};
use crate::truths::{post_so, read_joined, read_negation, read_truth};
use pi_constraints::{Item, Ref, StateStore};
use pi_prop_made::{JudgedItems, Making};
use std::alloc::Global;

/// What a goal makes: new variables, and constraints in the order of their making. A User's Guide to Picat, 'Constraints'.
pub(crate) fn read_goal<S: StateStore>(
    alloc: Global,
    s: &S,
    making: &mut Making,
    goal: Ref,
) -> Result<(), OperandStop>
    ensures { (m : Made) → IsState (S.seen s.now).now.state → IsThere (S.seen s.now).now goal → Shows making.old m →
        next (S.seen s.now).now.state ≤ m.unused → ShowsGoal (S.seen s.now).now
        (read_goal (goal_at (S.seen s.now).now goal)) m making.new result }
{
    match goal_node_at(s, goal) {
        GoalNode::Relation(comparison, left, right) => {
            post_relation(alloc, s, making, comparison, left, right)
        }
        GoalNode::Truth => post_truth(alloc, s, making, goal),
        GoalNode::Different(items) => post_different(alloc, s, making, items),
        GoalNode::Distinct(items) => post_distinct(alloc, s, making, items),
        GoalNode::Element(index, items, value) => {
            post_element(alloc, s, making, index, items, value)
        }
        GoalNode::Other => Err(OperandStop::NotLinear(goal)),
    }
}

/// A relation between operands.
fn post_relation<S: StateStore>(
    alloc: Global,
    s: &S,
    making: &mut Making,
    comparison: Comparison,
    left: Ref,
    right: Ref,
) -> Result<(), OperandStop>
    ensures { (m : Made) → IsState (S.seen s.now).now.state → IsThere (S.seen s.now).now left → IsThere (S.seen s.now).now right →
        Shows making.old m → next (S.seen s.now).now.state ≤ m.unused →
        ShowsGoal (S.seen s.now).now (posts_relation (comparison_of comparison) (operand_at (S.seen s.now).now left)
        (operand_at (S.seen s.now).now right)) m making.new result }
{
    match read_relation(alloc, s, making, comparison, left, right) {
        Ok(relation) => match making.post_standing(alloc, relation.how, &relation.sum) {
            Ok(()) => Ok(()),
            Err(_) => Err(OperandStop::Memory),
        },
        Err(stop) => Err(stop),
    }
}

/// A Boolean expression: its truth is 1.
fn post_truth<S: StateStore>(
    alloc: Global,
    s: &S,
    making: &mut Making,
    expression: Ref,
) -> Result<(), OperandStop>
    ensures { (m : Made) → IsState (S.seen s.now).now.state → IsThere (S.seen s.now).now expression → Shows making.old m →
        next (S.seen s.now).now.state ≤ m.unused → ShowsGoal (S.seen s.now).now
        (posts_truth (boolean_at (S.seen s.now).now expression)) m making.new result }
{
    let truth = read_truth(alloc, s, making, expression);
    post_known(alloc, making, truth)
}

/// A Boolean expression whose truth was read.
fn post_known(
    alloc: Global,
    making: &mut Making,
    truth: Result<Item, OperandStop>,
) -> Result<(), OperandStop>
    ensures { (w : Moment) (m : Made) (b : Boolean) → ShowsMade w making.old truth (read_truth b m) →
        ShowsGoal w (posts_truth b) m making.new result }
{
    match truth {
        Ok(truth) => match post_so(alloc, making, truth) {
            Ok(()) => Ok(()),
            Err(_) => Err(OperandStop::Memory),
        },
        Err(stop) => Err(stop),
    }
}

/// What a goal makes that is given by its kind and its arguments.
pub(crate) fn read_called<S: StateStore>(
    alloc: Global,
    s: &S,
    making: &mut Making,
    goal: PostingGoal,
) -> Result<(), OperandStop>
    ensures { (m : Made) → IsState (S.seen s.now).now.state → HasParts (S.seen s.now).now goal → Shows making.old m →
        next (S.seen s.now).now.state ≤ m.unused → ShowsGoal (S.seen s.now).now
        (read_goal (goal_as (S.seen s.now).now goal)) m making.new result }
{
    match goal {
        PostingGoal::Relation(comparison, left, right) => {
            post_relation(alloc, s, making, comparison, left, right)
        }
        PostingGoal::Negation(part) => {
            let truth = read_negation(alloc, s, making, part);
            post_known(alloc, making, truth)
        }
        PostingGoal::Joined(connective, left, right) => {
            let truth = read_joined(alloc, s, making, connective, left, right);
            post_known(alloc, making, truth)
        }
        PostingGoal::Different(items) => post_different(alloc, s, making, items),
        PostingGoal::Distinct(items) => post_distinct(alloc, s, making, items),
        PostingGoal::Element(index, items, value) => {
            post_element(alloc, s, making, index, items, value)
        }
    }
}

/// The items of `all_different` and `all_distinct`.
fn listed<S: StateStore>(alloc: Global, s: &S, collection: Ref) -> Result<JudgedItems, OperandStop>
    ensures { (m : Made) → IsState (S.seen s.now).now.state → IsThere (S.seen s.now).now collection →
        ShowsEach (S.seen s.now).now result (read_listed (value_at (S.seen s.now).now collection) m) m }
{
    match collected(alloc, s, collection) {
        Ok(terms) => items_at(alloc, s, &terms),
        Err(stop) => Err(stop),
    }
}

/// `all_different`.
fn post_different<S: StateStore>(
    alloc: Global,
    s: &S,
    making: &mut Making,
    collection: Ref,
) -> Result<(), OperandStop>
    ensures { (m : Made) → IsState (S.seen s.now).now.state → IsThere (S.seen s.now).now collection → Shows making.old m →
        ShowsGoal (S.seen s.now).now (posts_different (value_at (S.seen s.now).now collection)) m making.new result }
{
    match listed(alloc, s, collection) {
        Ok(items) => match making.post_different(items) {
            Ok(()) => Ok(()),
            Err(_) => Err(OperandStop::Memory),
        },
        Err(stop) => Err(stop),
    }
}

/// `all_distinct`.
fn post_distinct<S: StateStore>(
    alloc: Global,
    s: &S,
    making: &mut Making,
    collection: Ref,
) -> Result<(), OperandStop>
    ensures { (m : Made) → IsState (S.seen s.now).now.state → IsThere (S.seen s.now).now collection → Shows making.old m →
        ShowsGoal (S.seen s.now).now (posts_distinct (value_at (S.seen s.now).now collection)) m making.new result }
{
    match listed(alloc, s, collection) {
        Ok(items) => match making.post_distinct(items) {
            Ok(()) => Ok(()),
            Err(_) => Err(OperandStop::Memory),
        },
        Err(stop) => Err(stop),
    }
}

/// `element`: the index is judged first, then what has to be a list or an array, the value, and the items.
fn post_element<S: StateStore>(
    alloc: Global,
    s: &S,
    making: &mut Making,
    index: Ref,
    collection: Ref,
    value: Ref,
) -> Result<(), OperandStop>
    ensures { (m : Made) → IsState (S.seen s.now).now.state → IsThere (S.seen s.now).now index →
        IsThere (S.seen s.now).now collection → IsThere (S.seen s.now).now value → Shows making.old m →
        ShowsGoal (S.seen s.now).now (posts_element (value_at (S.seen s.now).now index) (value_at (S.seen s.now).now collection)
        (value_at (S.seen s.now).now value)) m making.new result }
{
    let index = match item_at(s, index) {
        Ok(index) => index,
        Err(stop) => return Err(stop),
    };
    let terms = match collected(alloc, s, collection) {
        Ok(terms) => terms,
        Err(stop) => return Err(stop),
    };
    let value = match item_at(s, value) {
        Ok(value) => value,
        Err(stop) => return Err(stop),
    };
    let items = match items_at(alloc, s, &terms) {
        Ok(items) => items,
        Err(stop) => return Err(stop),
    };
    match making.post_element(index, items, value) {
        Ok(()) => Ok(()),
        Err(_) => Err(OperandStop::Memory),
    }
}
