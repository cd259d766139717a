//! Calls of built-in predicates and functions.
ghost use Rattle.std.specs.Prelude.{◌≡◌, ℕ, IfOk};
ghost use Rattle.pi_constraints.specs.State.{IsState};
ghost use Rattle.pi_constraints.specs.Store.{StoreView};
ghost use Rattle.pi_effects.specs.Effect.{Effect};
ghost use Rattle.pi_engine_code.specs.declared.code.Node.{Node};
ghost use Rattle.pi_lib.specs.Outcomes.{ShowsOutcome};
ghost use Rattle.pi_lib.specs.Runs.{IsRaised};
ghost use Rattle.pi_engine_stands.specs.Makes.{RunsGoal, RunsGoalIn};
ghost use Rattle.pi_engine_stands.specs.Does.{ComesNext, IsTold};
ghost use Rattle.pi_engine_steps.specs.Done.{IsDone};
ghost use Rattle.pi_engine_stands.specs.Changes.{ChangesBy};

use crate::calls::take_arguments;
use crate::values::slot_at;
use pi_constraints::StateStore;
use pi_effects::{Stop, ball_of};
use pi_engine_arenas::{Now, Point, Run, Telling, behind};
use pi_engine_code::{Code, Step};
use pi_lib::{Outcome, call_function, call_predicate};
use pi_lib_builtin::{Function, Predicate};
use pi_meaning::Mode;
use pi_terms::{Term, Text};
use std::alloc::{AllocError, Global};

/// Calls a built-in predicate, which binds nothing, and whose arguments, so many, begin at an operand.
#[inline(never)]
pub fn call_built_in<S: StateStore>(
    code: &Code<'_>,
    mode: Mode,
    run: &mut Run<S>,
    point: Point,
    step: Step,
    predicate: Predicate,
    operands: u32,
    count: u32,
) -> Result<(), AllocError>
    ensures { IfOk result (λ _. (name : ℕ) → step.node ≡ Node.BuiltIn predicate name operands count →
        ChangesBy S.seen S.order code.now run.old run.new (RunsGoalIn mode point step)) }
{
    take_arguments(code, run, point.first_slot(step), operands, count)?;
    let outcome = call_predicate(run.alloc, &mut run.store, predicate, &run.terms);
    let next = next_of(run.alloc, &run.store, mode, outcome, behind(point, step))?;
    run.now = next;
    Ok(())
}

/// What is next behind a call of a predicate, or what is raised.
fn next_of<S: StateStore>(
    alloc: Global,
    store: &S,
    mode: Mode,
    outcome: Result<Outcome, Stop>,
    behind: Point,
) -> Result<Now, AllocError>
    ensures { IfOk result (λ now. (v : StoreView S.Mark) (e : Effect) → IsState v.now.state →
        ShowsOutcome v (S.seen store.now) outcome e → ComesNext mode behind e (S.seen store.now).now.state now) }
{
    match outcome {
        Ok(outcome) => done(alloc, mode, outcome, behind),
        Err(stop) => Ok(Now::Raising(raised(alloc, store, stop)?)),
    }
}

/// What is next behind a predicate that came to this.
fn done(alloc: Global, mode: Mode, outcome: Outcome, behind: Point) -> Result<Now, AllocError>
    ensures { IfOk result (λ now. IsDone mode behind outcome now) }
{
    match outcome {
        Outcome::Yes => Ok(Now::Going(behind)),
        Outcome::No => Ok(Now::Failing),
        Outcome::Out(text) => told(alloc, mode, text, behind),
    }
}

/// A text is told next; the body of a planner call may write none.
fn told(alloc: Global, mode: Mode, text: Text, point: Point) -> Result<Now, AllocError>
    ensures { IfOk result (λ now. IsTold mode text point now) }
{
    match mode {
        Mode::Top => {
            let told = Box::new(alloc, Telling { text, point })?;
            Ok(Now::Telling(told))
        }
        Mode::Inner(_) => Ok(Now::Raising(Term::atom(alloc, "output_in_plan")?)),
    }
}

/// Calls a built-in function, whose arguments, so many, begin at an operand. A slot takes its value.
#[inline(never)]
pub fn apply_built_in<S: StateStore>(
    code: &Code<'_>,
    run: &mut Run<S>,
    point: Point,
    step: Step,
    function: Function,
    operands: u32,
    count: u32,
    into: u32,
) -> Result<(), AllocError>
    ensures { IfOk result (λ _. (name : ℕ) → step.node ≡ Node.BuiltInValue function name operands count into →
        ChangesBy S.seen S.order code.now run.old run.new (RunsGoal point step)) }
{
    let first = point.first_slot(step);
    take_arguments(code, run, first, operands, count)?;
    match call_function(run.alloc, &mut run.store, function, &run.terms) {
        Ok(made) => {
            run.arenas.blocks.set(slot_at(first, into), made)?;
            run.now = Now::Going(behind(point, step));
            Ok(())
        }
        Err(stop) => {
            let ball = raised(run.alloc, &run.store, stop)?;
            run.now = Now::Raising(ball);
            Ok(())
        }
    }
}

/// The term that is raised, where it isn't memory that ran out.
pub fn raised<S: StateStore>(alloc: Global, store: &S, stop: Stop) -> Result<Term, AllocError>
    ensures { IfOk result (λ made. IsRaised (S.seen store.now) stop made) }
{
    let Stop::Raised(fault) = stop else {
        return Err(AllocError);
    };
    ball_of(alloc, store, fault)
}
