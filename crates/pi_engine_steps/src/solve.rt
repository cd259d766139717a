//! Calls of `solve`.
ghost use Rattle.std.specs.Prelude.{◌≡◌, ℕ, IfOk};
ghost use Rattle.pi_engine_code.specs.declared.code.Node.{Node};
ghost use Rattle.pi_engine_stands.specs.Makes.{RunsGoal};
ghost use Rattle.pi_engine_stands.specs.Searches.{LabelsOrSearches};
ghost use Rattle.pi_engine_stands.specs.Solves.{Labels};
ghost use Rattle.pi_engine_stands.specs.Changes.{Changes, ChangesBy};

use crate::built_ins::raised;
use crate::calls::take_arguments;
use crate::choices::push_entry;
use crate::search::search;
use pi_constraints::StoredDomains;
use pi_engine_arenas::{Alternatives, Kind, Now, Point, Run, behind};
use pi_engine_code::{Code, Step};
use pi_lib_solve::{Asked, ask, confine, pick};
use std::alloc::AllocError;

/// A call of `solve`, whose arguments, so many, begin at an operand. Where a variable is unbound one is picked, and its alternatives are left
/// to be tried; else the goals after the call are next.
#[inline(never)]
pub fn solve<S: StoredDomains>(
    code: &Code<'_>,
    run: &mut Run<S>,
    point: Point,
    step: Step,
    operands: u32,
    count: u32,
) -> Result<(), AllocError>
    ensures { IfOk result (λ _. (name : ℕ) → step.node ≡ Node.Solve name operands count →
        ChangesBy S.seen S.order code.now run.old run.new (RunsGoal point step)) }
{
    take_arguments(code, run, point.first_slot(step), operands, count)?;
    match ask(run.alloc, &run.store, &run.terms) {
        Ok(asked) => label(code, run, point, step, asked),
        Err(stop) => {
            let ball = raised(run.alloc, &run.store, stop)?;
            run.now = Now::Raising(ball);
            Ok(())
        }
    }
}

/// Labels, or begins a search.
fn label<S: StoredDomains>(
    code: &Code<'_>,
    run: &mut Run<S>,
    point: Point,
    step: Step,
    asked: Asked,
) -> Result<(), AllocError>
    ensures { IfOk result (λ _. ChangesBy S.seen S.order code.now run.old run.new
        (LabelsOrSearches point step asked.options asked.items.items run.old.terms.items)) }
{
    match asked.options.objective {
        Some(objective) => search(code, run, point, step, asked.options, objective),
        None => label_plainly(run, point, step, asked),
    }
}

/// Labels on: the variable that is picked leaves an entry for its alternatives.
pub(crate) fn label_plainly<S: StoredDomains>(
    run: &mut Run<S>,
    point: Point,
    step: Step,
    asked: Asked,
) -> Result<(), AllocError>
    ensures { IfOk result (λ _. Changes S.seen S.order run.old run.new (Labels point step asked.options asked.items.items)) }
{
    confine(run.alloc, &mut run.store, &asked.items)?;
    let Some(variable) = pick(&run.store, asked.options.variable, &asked.items) else {
        run.now = Now::Going(behind(point, step));
        return Ok(());
    };
    let frame = run.arenas.frame_behind(point, step)?;
    let kind = Kind::Alternatives(
        point.place,
        Alternatives {
            variable,
            word: asked.options.value,
            after: None,
        },
    );
    push_entry(run, point.base, frame, kind)?;
    run.now = Now::Failing;
    Ok(())
}
