//! The first goal of a point, by its node.
ghost use Rattle.std.specs.Prelude.{◌≡◌, Some, IfOk, IfErr, length};
ghost use Rattle.pi_engine_code.specs.declared.code.Node.TheVariants.{True};
ghost use Rattle.pi_meaning.specs.Machine.Budget.{Counts};
ghost use Rattle.pi_engine_stands.specs.Makes.{RunsGoal, RunsGoalIn, level_kind};
ghost use Rattle.pi_engine_stands.specs.Goes.{GoalGoes, PointGoes, GoalStops, PointStops, IsSilent, IsOther};
ghost use Rattle.pi_engine_stands.specs.Changes.{Changes, ChangesBy};

use crate::built_ins::{apply_built_in, call_built_in};
use crate::calls::{apply, call, give_value, make_equal};
use crate::choices::{enter_alternatives, enter_sequence};
use crate::constraints::{apply_domain, constrain};
use crate::levels::enter_level;
use crate::lists::count_collected;
use crate::raises::{enter_catch, throw};
use crate::solve::solve;
use crate::terms::call_term;
use crate::ticks::{tick, tick_call};
use pi_constraints::{StateStore, StoredDomains};
use pi_engine_arenas::{Kind, Now, Point, Run, Strict, behind};
use pi_engine_code::{Code, Node, Step};
use pi_meaning::{Budget, Mode};
use std::alloc::AllocError;

/// Runs the first goal of a point, which has one, or the value behind a function's body.
#[inline(always)]
pub fn run_goal<S: StoredDomains>(
    code: &Code<'_>,
    mode: Mode,
    run: &mut Run<S>,
    point: Point,
    budget: &mut Budget,
) -> Result<(), AllocError>
    ensures counts { Counts mode budget.old budget.new }
    ensures goes { IfOk result (λ _. ChangesBy S.seen S.order code.now run.old run.new (PointGoes mode budget.old budget.new point)) }
    ensures stops { IfErr result (λ _. ChangesBy S.seen S.order code.now run.old run.new (PointStops mode budget.old budget.new point)) }
{
    let Some(step) = code.step_there(point.place) else {
        run.now = Now::Failing;
        return Ok(());
    };
    match step.node {
        Node::Tick => {
            run_tick(mode, run, point, *step, budget);
            Ok(())
        }
        Node::Call(predicate, operands) => {
            run_call(code, mode, run, point, *step, predicate, operands, budget)
        }
        Node::True => {
            pass(run, point, *step);
            Ok(())
        }
        Node::Fail => {
            fail_here(run, point, *step);
            Ok(())
        }
        Node::Seq(count) => enter_sequence(run, point, *step, count),
        _ => run_other(code, mode, run, point, step, budget),
    }
}

/// Runs the first goal of a point, which is none of those that `run_goal` runs at sight. It stands by itself, and is
/// inlined, so that its copies of the point and of the step are made where they are used alone.
#[inline(always)]
fn run_other<S: StoredDomains>(
    code: &Code<'_>,
    mode: Mode,
    run: &mut Run<S>,
    point: Point,
    step: &Step,
    budget: &mut Budget,
) -> Result<(), AllocError>
    ensures counts { Counts mode budget.old budget.new }
    ensures goes { IfOk result (λ _. IsOther step.now.node →
        ChangesBy S.seen S.order code.now run.old run.new (GoalGoes mode budget.old budget.new point step.now)) }
    ensures stops { IfErr result (λ _. ChangesBy S.seen S.order code.now run.old run.new
        (GoalStops mode budget.old budget.new point step.now)) }
{
    match step.node {
        Node::Apply(predicate, operands, into) => {
            run_apply(
                code, mode, run, point, *step, predicate, operands, into, budget,
            )
        }
        Node::Value(operand) => give_value(code, run, point, *step, operand),
        Node::CallTerm(operands, count) => call_term(code, run, point, *step, operands, count),
        _ => run_silent(code, mode, run, point, *step),
    }
}

/// Counts a Tick, and passes its goal.
#[inline(always)]
fn run_tick<S: StateStore>(
    mode: Mode,
    run: &mut Run<S>,
    point: Point,
    step: Step,
    budget: &mut Budget,
)
    ensures counts { Counts mode budget.old budget.new }
    ensures goes { step.node ≡ Node.Tick → Changes S.seen S.order run.old run.new (GoalGoes mode budget.old budget.new point step) }
{
    if tick(mode, &mut run.now, budget) {
        run.now = Now::Going(behind(point, step));
    }
}

/// Counts the Tick of a call, where it has one, and makes the call.
#[inline(always)]
fn run_call<S: StateStore>(
    code: &Code<'_>,
    mode: Mode,
    run: &mut Run<S>,
    point: Point,
    step: Step,
    predicate: u32,
    operands: u32,
    budget: &mut Budget,
) -> Result<(), AllocError>
    ensures counts { Counts mode budget.old budget.new }
    ensures goes { IfOk result (λ _. step.node ≡ Node.Call predicate operands →
        ChangesBy S.seen S.order code.now run.old run.new (GoalGoes mode budget.old budget.new point step)) }
    ensures stops { IfErr result (λ _. step.node ≡ Node.Call predicate operands →
        ChangesBy S.seen S.order code.now run.old run.new (GoalStops mode budget.old budget.new point step)) }
{
    let Some(called) = code.predicate_there(predicate) else {
        run.now = Now::Failing;
        return Ok(());
    };
    if !tick_call(called.is_quiet, mode, &mut run.now, budget) {
        return Ok(());
    }
    call(code, run, point, step, called, predicate, operands)
}

/// The same of a function's call. It stands apart from `run_call`, which is inlined into each turn.
#[inline(never)]
fn run_apply<S: StateStore>(
    code: &Code<'_>,
    mode: Mode,
    run: &mut Run<S>,
    point: Point,
    step: Step,
    predicate: u32,
    operands: u32,
    into: u32,
    budget: &mut Budget,
) -> Result<(), AllocError>
    ensures counts { Counts mode budget.old budget.new }
    ensures goes { IfOk result (λ _. step.node ≡ Node.Apply predicate operands into →
        ChangesBy S.seen S.order code.now run.old run.new (GoalGoes mode budget.old budget.new point step)) }
    ensures stops { IfErr result (λ _. step.node ≡ Node.Apply predicate operands into →
        ChangesBy S.seen S.order code.now run.old run.new (GoalStops mode budget.old budget.new point step)) }
{
    let Some(called) = code.predicate_there(predicate) else {
        run.now = Now::Failing;
        return Ok(());
    };
    if !tick_call(called.is_quiet, mode, &mut run.now, budget) {
        return Ok(());
    }
    apply(code, run, point, step, called, predicate, operands)
}

/// Passes a goal that is `true`.
#[inline(always)]
fn pass<S: StateStore>(run: &mut Run<S>, point: Point, step: Step)
    ensures { step.node ≡ True → Changes S.seen S.order run.old run.new (RunsGoal point step) }
{
    run.now = Now::Going(behind(point, step));
}

/// Fails.
#[inline(always)]
fn fail_here<S: StateStore>(run: &mut Run<S>, point: Point, step: Step)
    ensures { step.node ≡ Node.Fail → Changes S.seen S.order run.old run.new (RunsGoal point step) }
{
    run.now = Now::Failing;
}

/// Runs the first goal of a point, which counts no Tick and isn't run at sight.
#[inline(never)]
fn run_silent<S: StoredDomains>(
    code: &Code<'_>,
    mode: Mode,
    run: &mut Run<S>,
    point: Point,
    step: Step,
) -> Result<(), AllocError>
    ensures { IfOk result (λ _. ChangesBy S.seen S.order code.now run.old run.new (λ made. IsOther step.node → IsSilent step.node →
        RunsGoalIn mode point step made)) }
{
    match step.node {
        Node::Alt(count) => enter_alternatives(code, run, point, step, count),
        Node::Unify(left, right) => make_equal(code, run, point, step, left, right),
        Node::Throw(ball) => throw(code, run, point, step, ball),
        Node::BuiltIn(predicate, _, operands, count) => {
            call_built_in(code, mode, run, point, step, predicate, operands, count)
        }
        Node::BuiltInValue(function, _, operands, count, into) => {
            apply_built_in(code, run, point, step, function, operands, count, into)
        }
        Node::Constrain(goal, _, operands, count) => {
            constrain(code, run, point, step, goal, operands, count)
        }
        Node::DomainValue(function, _, operands, count, into) => {
            apply_domain(code, run, point, step, function, operands, count, into)
        }
        Node::Solve(_, operands, count) => solve(code, run, point, step, operands, count),
        Node::Catch(ball) => enter_catch(code, run, point, step, ball),
        Node::If => enter_strict(code, run, point, step, Strict::If(point.place)),
        Node::Not => enter_strict(code, run, point, step, Strict::Not(point.place)),
        Node::Once => enter_strict(code, run, point, step, Strict::Once(point.place)),
        Node::Count(_) => enter_strict(code, run, point, step, Strict::Count(point.place, 0)),
        Node::Collect(_, _) => {
            let first = count_collected(run);
            enter_strict(code, run, point, step, Strict::Collect(point.place, first))
        }
        // The rest is run before it comes here.
        _ => Ok(()),
    }
}

fn enter_strict<S: StateStore>(
    code: &Code<'_>,
    run: &mut Run<S>,
    point: Point,
    step: Step,
    strict: Strict,
) -> Result<(), AllocError>
    ensures { IfOk result (λ _. level_kind point.place (length run.old.arenas.collected.items) step.node ≡
        Some (Kind.Strict strict) → ChangesBy S.seen S.order code.now run.old run.new (RunsGoal point step)) }
{
    enter_level(code, run, point, step, Kind::Strict(strict))
}
