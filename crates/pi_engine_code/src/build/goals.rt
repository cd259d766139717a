//! Goals as steps.
ghost use Rattle.std.specs.Prelude.{◌≡◌, ◌+◌, ◌-◌, ◌++◌, ◌∷◌, [], List, false, true, replicate, IfOk, length};
ghost use Rattle.pi_core.specs.GoalTree.{nodes, child_goals};
ghost use Rattle.pi_core.specs.GoalCells.{kind_shown};
ghost use Rattle.pi_constraints.specs.Store.{Keeps};
ghost use Rattle.pi_core.specs.declared.core_program.CorePred.{CorePred};
ghost use Rattle.pi_core.specs.declared.goal_node.GoalKind.TheVariants.{Call as CallKind, Apply as ApplyKind};
ghost use Rattle.pi_engine_code.specs.Numbers.{IsNumbering};
ghost use Rattle.pi_engine_code.specs.Laid.{tables_for, Longer, AddsOperands, AddsSteps, OperandsAt, IsNodeOf, StepsAt, IsLaid, IsValueLaid, AreResolved, marked, before_last, Sized, layout_in};

use super::sizes::{child_count, sizes_of};
use super::terms::operand_of;
use super::{Builder, Shape, short};
use crate::code::{Code, Node, Step};
use pi_constraints::StateStore;
use pi_core::{CoreGoal, GoalNode};
use pi_label::is_solve;
use pi_lib_builtin::{function_named, predicate_named};
use pi_lib_constraints::{constraint_named, domain_function_named};
use pi_meaning::is_call;
use pi_terms::{Args, Term, Text};
use std::alloc::AllocError;

impl Builder<'_> {
    /// Adds the steps of a goal, and answers the place of the first. Where it is a body's last goal, so are those in it
    /// behind which nothing is left to do in the body.
    pub(super) fn add_goal<S: StateStore>(
        &self,
        code: &mut Code<'_>,
        store: &mut S,
        goal: &CoreGoal,
        shape: Shape,
        is_last: bool,
    ) -> Result<u32, AllocError>
        ensures keeps { Keeps (S.seen store.old) (S.seen store.new) }
        ensures adds { IfOk result (λ _. AddsSteps (S.seen store.old) (S.seen store.new) code.old code.new) }
        ensures place { IfOk result (λ place. place ≡ length code.old.steps.items) }
        ensures long { IfOk result (λ _. length code.new.steps.items ≡ length code.old.steps.items + nodes goal.now) }
        ensures laid { IfOk result (λ place. (preds : List CorePred) → IsNumbering self.now.numbers preds →
            IsLaid (layout_in preds (S.seen store.new) code.new shape)
            place goal.now is_last) }
        ensures resolved { IfOk result (λ _. (preds : List CorePred) → IsNumbering self.now.numbers preds →
            AreResolved preds code.old.steps.items → AreResolved preds code.new.steps.items) }
    {
        let start = short(code.steps.len())?;
        let sizes = sizes_of(self.alloc, goal)?;
        self.add_steps(code, store, goal, &sizes, shape, is_last)?;
        short(code.steps.len())?;
        Ok(start)
    }

    /// Adds the steps of a goal, which has these sizes. Of the goals that are still ahead, those that aren't below another
    /// one have a mark each, the next one's last.
    fn add_steps<S: StateStore>(
        &self,
        code: &mut Code<'_>,
        store: &mut S,
        goal: &CoreGoal,
        sizes: &[usize],
        shape: Shape,
        is_last: bool,
    ) -> Result<(), AllocError>
        requires { Sized goal.now sizes.now 0 }
        ensures keeps { Keeps (S.seen store.old) (S.seen store.new) }
        ensures adds { IfOk result (λ _. AddsSteps (S.seen store.old) (S.seen store.new) code.old code.new) }
        ensures long { IfOk result (λ _. length code.new.steps.items ≡ length code.old.steps.items + nodes goal.now) }
        ensures are { IfOk result (λ _. (preds : List CorePred) → IsNumbering self.now.numbers preds →
            StepsAt (layout_in preds (S.seen store.new) code.new shape)
            (length code.old.steps.items) (marked goal.now is_last)) }
        ensures resolved { IfOk result (λ _. (preds : List CorePred) → IsNumbering self.now.numbers preds →
            AreResolved preds code.old.steps.items → AreResolved preds code.new.steps.items) }
    {
        let mut marks = Vec::new(self.alloc);
        marks.push(is_last)?;
        for i in 0..goal.nodes() {
            let is_last = marks.pop().unwrap_or(false);
            let shown = goal.node(i);
            push_marks(&mut marks, shown, is_last)?;
            let node = self.node_of(code, store, shown)?;
            code.steps
                .push(step_of(node, short(sizes[i])?, shape, is_last))?;
        }
        Ok(())
    }

    /// Adds the step that gives the value of a function's clause.
    pub(super) fn add_value<S: StateStore>(
        &self,
        code: &mut Code<'_>,
        store: &mut S,
        value: &Term,
        shape: Shape,
    ) -> Result<(), AllocError>
        ensures keeps { Keeps (S.seen store.old) (S.seen store.new) }
        ensures adds { IfOk result (λ _. AddsSteps (S.seen store.old) (S.seen store.new) code.old code.new) }
        ensures laid { IfOk result (λ _. (preds : List CorePred) →
            IsValueLaid (tables_for preds (S.seen store.new).now.terms code.new) code.new.steps.items shape.first_slot shape.slots
            (length code.old.steps.items) value.now) }
        ensures resolved { IfOk result (λ _. (preds : List CorePred) → AreResolved preds code.old.steps.items →
            AreResolved preds code.new.steps.items) }
    {
        let node = Node::Value(operand_of(self.alloc, code, store, value)?);
        code.steps.push(step_of(node, 1, shape, false))?;
        Ok(())
    }

    /// A node with its names resolved.
    fn node_of<S: StateStore>(
        &self,
        code: &mut Code<'_>,
        store: &mut S,
        node: GoalNode<'_>,
    ) -> Result<Node, AllocError>
        ensures keeps { Keeps (S.seen store.old) (S.seen store.new) }
        ensures adds { IfOk result (λ _. AddsOperands (S.seen store.old) (S.seen store.new) code.old code.new) }
        ensures is { IfOk result (λ made. (preds : List CorePred) → IsNumbering self.now.numbers preds →
            IsNodeOf preds (tables_for preds (S.seen store.new).now.terms code.new) (kind_shown node.entry) made) }
    {
        match node {
            GoalNode::True => Ok(Node::True),
            GoalNode::Fail => Ok(Node::Fail),
            GoalNode::Tick => Ok(Node::Tick),
            GoalNode::Seq(count) => Ok(Node::Seq(short(count)?)),
            GoalNode::Alt(count) => Ok(Node::Alt(short(count)?)),
            GoalNode::If => Ok(Node::If),
            GoalNode::Not => Ok(Node::Not),
            GoalNode::Once => Ok(Node::Once),
            GoalNode::Collect(value, into) => Ok(Node::Collect(value, into)),
            GoalNode::Count(into) => Ok(Node::Count(into)),
            GoalNode::Catch(ball) => Ok(Node::Catch(operand_of(self.alloc, code, store, ball)?)),
            GoalNode::Call(name, args) => self.call_of(code, store, name, args.as_slice()),
            GoalNode::Apply(name, args, slot) => {
                self.apply_of(code, store, name, args.as_slice(), slot)
            }
        }
    }

    /// A call: of a term, of a built-in predicate, of a goal of constraints, of `solve`, or of a predicate that has a number. A
    /// name that is none of these is no sound program's.
    fn call_of<S: StateStore>(
        &self,
        code: &mut Code<'_>,
        store: &mut S,
        name: &Text,
        args: &[Term],
    ) -> Result<Node, AllocError>
        ensures keeps { Keeps (S.seen store.old) (S.seen store.new) }
        ensures adds { IfOk result (λ _. AddsOperands (S.seen store.old) (S.seen store.new) code.old code.new) }
        ensures is { IfOk result (λ made. (preds : List CorePred) → IsNumbering self.now.numbers preds →
            IsNodeOf preds (tables_for preds (S.seen store.new).now.terms code.new) (CallKind name.now args.now) made) }
    {
        if args.len() == 2 && name.as_str() == "=" {
            let left = operand_of(self.alloc, code, store, &args[0])?;
            let right = operand_of(self.alloc, code, store, &args[1])?;
            return Ok(Node::Unify(left, right));
        }
        if args.len() == 1 && name.as_str() == "throw" {
            let ball = operand_of(self.alloc, code, store, &args[0])?;
            return Ok(Node::Throw(ball));
        }
        let operands = self.add_operands(code, store, args)?;
        if is_call(name.as_str(), args.len()) {
            return Ok(Node::CallTerm(operands, short(args.len())?));
        }
        if let Some(predicate) = predicate_named(name.as_str(), args.len()) {
            let name = self.add_name(&mut code.names, name)?;
            let count = short(args.len())?;
            return Ok(Node::BuiltIn(predicate, name, operands, count));
        }
        if let Some(goal) = constraint_named(name.as_str(), args.len()) {
            let name = self.add_name(&mut code.names, name)?;
            let count = short(args.len())?;
            return Ok(Node::Constrain(goal, name, operands, count));
        }
        let count = short(args.len())?;
        if is_solve(name.as_str(), count) {
            let name = self.add_name(&mut code.names, name)?;
            return Ok(Node::Solve(name, operands, count));
        }
        match self.numbers.get(false, name, args.len())? {
            Some(number) => Ok(Node::Call(number, operands)),
            None => Ok(Node::Fail),
        }
    }

    /// A function's call, whose value a slot takes.
    fn apply_of<S: StateStore>(
        &self,
        code: &mut Code<'_>,
        store: &mut S,
        name: &Text,
        args: &[Term],
        slot: u32,
    ) -> Result<Node, AllocError>
        ensures keeps { Keeps (S.seen store.old) (S.seen store.new) }
        ensures adds { IfOk result (λ _. AddsOperands (S.seen store.old) (S.seen store.new) code.old code.new) }
        ensures is { IfOk result (λ made. (preds : List CorePred) → IsNumbering self.now.numbers preds →
            IsNodeOf preds (tables_for preds (S.seen store.new).now.terms code.new) (ApplyKind name.now args.now slot) made) }
    {
        let operands = self.add_operands(code, store, args)?;
        if let Some(function) = function_named(name.as_str(), args.len()) {
            let name = self.add_name(&mut code.names, name)?;
            let count = short(args.len())?;
            return Ok(Node::BuiltInValue(function, name, operands, count, slot));
        }
        if let Some(function) = domain_function_named(name.as_str(), args.len()) {
            let name = self.add_name(&mut code.names, name)?;
            let count = short(args.len())?;
            return Ok(Node::DomainValue(function, name, operands, count, slot));
        }
        match self.numbers.get(true, name, args.len())? {
            Some(number) => Ok(Node::Apply(number, operands, slot)),
            None => Ok(Node::Fail),
        }
    }

    /// Adds a name to the names, and answers its place.
    fn add_name(&self, names: &mut Vec<Text>, name: &Text) -> Result<u32, AllocError>
        ensures place { IfOk result (λ place. place ≡ length names.old.items) }
        ensures added { IfOk result (λ _. names.new.items ≡ names.old.items ++ name.now ∷ []) }
        ensures longer { Longer names.old.items names.new.items }
    {
        let place = short(names.len())?;
        names.push(Text::new(self.alloc, name.as_str())?)?;
        Ok(place)
    }

    /// Adds the operands of a call, and answers where the first one stands.
    fn add_operands<S: StateStore>(
        &self,
        code: &mut Code<'_>,
        store: &mut S,
        args: &[Term],
    ) -> Result<u32, AllocError>
        ensures keeps { Keeps (S.seen store.old) (S.seen store.new) }
        ensures adds { IfOk result (λ _. AddsOperands (S.seen store.old) (S.seen store.new) code.old code.new) }
        ensures are { IfOk result (λ first. (preds : List CorePred) →
            OperandsAt (tables_for preds (S.seen store.new).now.terms code.new) first args.now) }
    {
        let first = short(code.operands.len())?;
        for arg in args {
            let operand = operand_of(self.alloc, code, store, arg)?;
            code.operands.push(operand)?;
        }
        Ok(first)
    }
}

fn step_of(node: Node, size: u32, shape: Shape, is_last: bool) -> Step
    ensures node { result.node ≡ node }
    ensures size { result.size ≡ size }
    ensures first { result.first_slot ≡ shape.first_slot }
    ensures slots { result.slots ≡ shape.slots }
    ensures last { result.is_last ≡ is_last }
{
    Step {
        node,
        size,
        first_slot: shape.first_slot,
        slots: shape.slots,
        is_last,
    }
}

/// Marks the child goals of a node, the first one's mark last: where the node's goal is last, its last ones are.
fn push_marks(marks: &mut Vec<bool>, node: GoalNode<'_>, is_last: bool) -> Result<(), AllocError>
    ensures { IfOk result (λ _. marks.new.items ≡
        marks.old.items ++ (replicate (child_goals node.entry - before_last node.entry) is_last
        ++ replicate (before_last node.entry) false)) }
{
    let before = before_last(node);
    push_times(marks, child_count(node).saturating_sub(before), is_last)?;
    push_times(marks, before, false)
}

/// Pushes a mark so many times.
fn push_times(marks: &mut Vec<bool>, times: usize, mark: bool) -> Result<(), AllocError>
    ensures { IfOk result (λ _. marks.new.items ≡ marks.old.items ++ replicate times mark) }
{
    for _k in 0..times {
        marks.push(mark)?;
    }
    Ok(())
}

/// How many child goals of a node stand before those behind which nothing of it is left to do.
fn before_last(node: GoalNode<'_>) -> usize
    ensures { result ≡ before_last node.entry }
{
    match node {
        GoalNode::Seq(count) => count.saturating_sub(1),
        GoalNode::If
        | GoalNode::Catch(_)
        | GoalNode::Not
        | GoalNode::Once
        | GoalNode::Collect(_, _)
        | GoalNode::Count(_) => 1,
        GoalNode::Alt(_)
        | GoalNode::True
        | GoalNode::Fail
        | GoalNode::Tick
        | GoalNode::Call(_, _)
        | GoalNode::Apply(_, _, _) => 0,
    }
}
