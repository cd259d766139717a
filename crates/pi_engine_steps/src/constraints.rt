//! Calls of goals of constraints, and of functions of domains.
ghost use Rattle.std.specs.Prelude.{◌≡◌, ℕ, IfOk};
ghost use Rattle.pi_terms.specs.Tree.{Tree};
ghost use Rattle.pi_constraints.specs.State.{State, IsState, SpeaksBelow, next};
ghost use Rattle.pi_constraints.specs.Store.{StoreView, IsTerm};
ghost use Rattle.pi_effects.specs.Effect.{Effect};
ghost use Rattle.pi_lib.specs.Outcomes.{ShowsOutcome};
ghost use Rattle.pi_engine_code.specs.declared.code.Node.{Node};
ghost use Rattle.pi_engine_settle.specs.Due.{SinceIs};
ghost use Rattle.pi_engine_settle.specs.Settles.{LeftBy};
ghost use Rattle.pi_engine_stands.specs.Does.{ComesAfter};
ghost use Rattle.pi_engine_stands.specs.Makes.{RunsGoal};
ghost use Rattle.pi_engine_stands.specs.Changes.{ChangesBy};
ghost use Rattle.pi_engine_steps.specs.Done.{IsNext, Leaves};

use crate::built_ins::raised;
use crate::calls::take_arguments;
use crate::settling::next_after;
use crate::values::slot_at;
use pi_constraints::{Ref, StateStore, StoredDomains};
use pi_effects::Stop;
use pi_engine_arenas::{Now, Point, Run, behind};
use pi_engine_code::{Code, Step};
use pi_engine_settle::{Since, begin};
use pi_lib::{Outcome, one};
use pi_lib_constraints::{ConstraintGoal, DomainFunction, call_constraint, call_domain_function};
use std::alloc::{AllocError, Global};

/// Calls a goal of constraints, whose arguments, so many, begin at an operand. What it leaves is settled before the goals behind it.
#[inline(never)]
pub fn constrain<S: StoredDomains>(
    code: &Code<'_>,
    run: &mut Run<S>,
    point: Point,
    step: Step,
    goal: ConstraintGoal,
    operands: u32,
    count: u32,
) -> Result<(), AllocError>
    ensures { IfOk result (λ _. (name : ℕ) → step.node ≡ Node.Constrain goal name operands count →
        ChangesBy S.seen S.order code.now run.old run.new (RunsGoal point step)) }
{
    take_arguments(code, run, point.first_slot(step), operands, count)?;
    see_terms(&run.store);
    let since = begin(&mut run.store)?;
    let outcome = call_constraint(run.alloc, &mut run.store, goal, &run.terms);
    let next = next_of(run.alloc, &run.store, &since, outcome, behind(point, step))?;
    run.now = next;
    Ok(())
}

/// What a look says of all terms: they speak of variables that were made.
pub(crate) fn see_terms<S: StateStore>(store: &S)
    ensures { (q : Ref) (t : Tree) → IsTerm (S.seen store.now) q t → SpeaksBelow (next (S.seen store.now).now.state) t }
{
    let _root = store.look(Ref { number: 0 });
}

/// What is next behind a goal of constraints that began there, or what is raised.
fn next_of<S: StateStore>(
    alloc: Global,
    store: &S,
    since: &Option<Since<S::Mark>>,
    outcome: Result<Outcome, Stop>,
    behind: Point,
) -> Result<Now, AllocError>
    ensures { IfOk result (λ now. (v : StoreView S.Mark) (e : Effect) → IsState v.now.state →
        SinceIs (S.seen store.now) v.now.state since.now → ShowsOutcome v (S.seen store.now) outcome e → Leaves v.now.state e →
        ComesAfter v.now.state behind e (S.seen store.now).now.state now) }
{
    match outcome {
        Ok(outcome) => done(alloc, store, since, outcome, behind),
        Err(stop) => Ok(Now::Raising(raised(alloc, store, stop)?)),
    }
}

/// What is next behind a goal of constraints that came to this. None of them writes.
fn done<S: StateStore>(
    alloc: Global,
    store: &S,
    since: &Option<Since<S::Mark>>,
    outcome: Outcome,
    behind: Point,
) -> Result<Now, AllocError>
    ensures { IfOk result (λ now. (before : State) → SinceIs (S.seen store.now) before since.now →
        (outcome ≡ Outcome.Yes → LeftBy before (S.seen store.now).now.state) →
        IsNext before (S.seen store.now).now.state behind outcome now) }
{
    match outcome {
        Outcome::Yes => next_after(alloc, store, since, true, behind),
        Outcome::No => Ok(Now::Failing),
        Outcome::Out(_) => Ok(Now::Failing),
    }
}

/// Calls a function of domains, whose argument is an operand. A slot takes its value.
#[inline(never)]
pub fn apply_domain<S: StoredDomains>(
    code: &Code<'_>,
    run: &mut Run<S>,
    point: Point,
    step: Step,
    function: DomainFunction,
    operands: u32,
    count: u32,
    into: u32,
) -> Result<(), AllocError>
    ensures { IfOk result (λ _. (name : ℕ) → step.node ≡ Node.DomainValue function name operands count into →
        ChangesBy S.seen S.order code.now run.old run.new (RunsGoal point step)) }
{
    let first = point.first_slot(step);
    take_arguments(code, run, first, operands, count)?;
    let Some(arg) = one(&run.terms) else {
        return Ok(());
    };
    match call_domain_function(run.alloc, &mut run.store, function, arg) {
        Ok(made) => {
            run.arenas.blocks.set(slot_at(first, into), made)?;
            run.now = Now::Going(behind(point, step));
            Ok(())
        }
        Err(stop) => {
            let ball = raised(run.alloc, &run.store, stop)?;
            run.now = Now::Raising(ball);
            Ok(())
        }
    }
}
