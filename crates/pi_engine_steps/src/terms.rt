//! `call` of a term: the goal by which it is called runs in a block of its own.
ghost use Rattle.std.specs.Prelude.{◌≡◌, Some, IfOk, slice_get};
ghost use Rattle.pi_engine_code.specs.declared.code.Node.{Node};
ghost use Rattle.pi_constraints.specs.declared.store.Ref.{Ref};
ghost use Rattle.pi_engine_stands.specs.Makes.{RunsGoal};
ghost use Rattle.pi_engine_stands.specs.Changes.{ChangesBy};

use crate::calls::take_arguments;
use pi_constraints::{Ref, StateStore};
use pi_effects::{Fault, Kind, ball_of};
use pi_engine_arenas::{Now, Point, Run};
use pi_engine_code::{Code, Step};
use pi_engine_facts::{take_called, unknown_name};
use std::alloc::AllocError;

/// Calls a term. It is the first of so many operands from one on, and the others are arguments behind its own. A last call gives the
/// slots of its body back first.
#[inline(never)]
pub fn call_term<S: StateStore>(
    code: &Code<'_>,
    run: &mut Run<S>,
    point: Point,
    step: Step,
    operands: u32,
    count: u32,
) -> Result<(), AllocError>
    ensures { IfOk result (λ _. step.node ≡ Node.CallTerm operands count →
        ChangesBy S.seen S.order code.now run.old run.new (RunsGoal point step)) }
{
    take_arguments(code, run, point.first_slot(step), operands, count)?;
    let Some(name) = take_called(&run.store, &run.terms, &mut run.parts)? else {
        let fault = Fault::WrongKind(Kind::Callable, first_of(&run.terms));
        let ball = ball_of(run.alloc, &run.store, fault)?;
        run.now = Now::Raising(ball);
        return Ok(());
    };
    let arity = run.parts.len() as u64;
    let Some(place) = code.goal_named(name, arity) else {
        let preds = code.core.preds.as_slice();
        let helpers = code.helpers.as_slice();
        let ball = unknown_name(run.alloc, preds, helpers, run.store.name(name), arity)?;
        run.now = Now::Raising(ball);
        return Ok(());
    };
    let frame = run.arenas.frame_behind(point, step)?;
    if step.is_last {
        run.arenas.blocks.truncate(point.base);
    }
    let base = run.arenas.blocks.count();
    run.arenas.blocks.push_terms(&run.parts)?;
    run.now = Now::Going(Point {
        place,
        count: 1,
        base,
        frame,
    });
    Ok(())
}

/// The first of these terms; that of the first variable, where there is none.
fn first_of(terms: &[Ref]) -> Ref
    ensures { (r : Ref) → slice_get terms.now 0 ≡ Some r → result ≡ r }
{
    match terms.first() {
        Some(term) => *term,
        None => Ref { number: 0 },
    }
}
