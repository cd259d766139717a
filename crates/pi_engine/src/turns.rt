//! The turns of a machine: one step after the other, until there is an answer or an end.
ghost use Rattle.std.specs.Prelude.{◌≡◌, Some, IfOk, IfErr, Box};
ghost use Rattle.std.specs.Global.{Global};
ghost use Rattle.pi_engine_arenas.specs.declared.run.Telling.{Telling};
ghost use Rattle.pi_meaning.specs.Shared.View.{View};
ghost use Rattle.pi_meaning.specs.declared.happening.Budget.{Budget};
ghost use Rattle.pi_meaning.specs.declared.happening.Mode.{Mode};
ghost use Rattle.pi_engine_arenas.specs.declared.run.End.{End};
ghost use Rattle.pi_engine_arenas.specs.Frames.{frame_at};
ghost use Rattle.pi_meaning.specs.Machine.Configuration.{Config};
ghost use Rattle.pi_engine_stands.specs.Answers.{AreNames};
ghost use Rattle.pi_engine_stands.specs.Views.{Fits};
ghost use Rattle.pi_engine_stands.specs.Makes.{GoesFrom};
ghost use Rattle.pi_engine_stands.specs.Goes.{IsIn, PointIsDone, counting};
ghost use Rattle.pi_engine_arenas.specs.declared.run.Settling.{Settling};
ghost use Rattle.pi_engine.specs.Happens.{IsBuiltSoFar};
ghost use Rattle.pi_engine.specs.Spends.{Spends};
ghost use Rattle.pi_engine.specs.Turns.{StepIs, StepStops, after_settling, SettlesDue, SettlingStops, stopped_run, NextComes, IsRunning, RunsAfter, IsAnswered, RepeatsEnd, Lasts, IsRaised, with_budget};
ghost use Rattle.pi_engine_stands.specs.Changes.{Changes, ChangesBy};

use pi_constraints::{KeptStates, StateStore};
use pi_core::{Answer, NameSlot};
use pi_engine_arenas::{End, Now, Point, Run, Settling, Telling};
use pi_engine_code::Code;
use pi_engine_settle::{Settled, settle};
use pi_engine_steps::{answer, answer_level, fail, run_goal, unwind};
use pi_meaning::{Budget, Happening, Mode};
use pi_terms::Text;
use std::alloc::{AllocError, Global};
use std::mem;

/// What a step comes to. An answer and a text are boxed, since each step without one would move the room for it.
pub enum Outcome {
    More,
    Answered(Box<Answer>),
    /// A text is told.
    Told(Box<Telling>),
}

/// What comes next in a run: an answer, a text, or the end.
pub fn next_happening<S: KeptStates>(
    code: &Code<'_>,
    mode: Mode,
    names: &[NameSlot],
    run: &mut Run<S>,
    budget: &mut Budget,
) -> Happening
    ensures spends { Spends mode budget.old budget.new }
    ensures comes { ChangesBy S.seen S.order code.now run.old run.new (λ made. AreNames made.before.loaded.query_slots names.now →
        (v : View) → Fits mode v → (c : Config) → IsIn v names.now made.before run.old.now c →
        NextComes v names.now mode budget.old budget.new made.after run.old.now made.now c result) }
    ensures repeats { (e : End) → run.old.now ≡ Now.Ended e →
        RepeatsEnd stopped_run e (with_budget run.old budget.old) (with_budget run.new budget.new) result }
    ensures built { IsBuiltSoFar result }
    ensures lasts { Lasts result run.new.now }
{
    for turn in 0..u64::MAX {
        if let Now::Ended(end) = &run.now {
            let Ok(happening) = repeated(run.alloc, end) else {
                return memory_wanted(run);
            };
            return happening;
        }
        let Ok(outcome) = step(code, mode, names, run, budget) else {
            return memory_wanted(run);
        };
        match outcome {
            Outcome::More => {}
            Outcome::Answered(answer) => return Happening::Answer(Box::into_inner(answer)),
            Outcome::Told(told) => return Happening::Out(text_of(told)),
        }
    }
    memory_wanted(run)
}

/// The text that is told.
fn text_of(told: Box<Telling>) -> Text
    ensures { result ≡ told.value.text }
{
    let Telling { text, .. } = Box::into_inner(told);
    text
}

/// Ends a run for want of memory, and changes nothing else of it.
fn memory_wanted<S: StateStore>(run: &mut Run<S>) -> Happening
    ensures result { result ≡ Happening.Memory }
    ensures stopped { run.new ≡ stopped_run run.old }
{
    run.now = Now::Ended(End::Memory);
    Happening::Memory
}

/// One step of a run. Where it has ended, nothing.
#[inline(always)]
fn step<S: KeptStates>(
    code: &Code<'_>,
    mode: Mode,
    names: &[NameSlot],
    run: &mut Run<S>,
    budget: &mut Budget,
) -> Result<Outcome, AllocError>
    ensures spends { Spends mode budget.old budget.new }
    ensures answered { IfOk result (λ outcome. RunsAfter outcome run.new.now) }
    ensures is { IfOk result (λ outcome. IsRunning run.old.now → ChangesBy S.seen S.order code.now run.old run.new (λ made.
        AreNames made.before.loaded.query_slots names.now → (v : View) → Fits mode v → (c : Config) →
        IsIn v names.now made.before run.old.now c → StepIs v names.now mode budget.old budget.new made.after made.now c outcome)) }
    ensures stops { IfErr result (λ _. IsRunning run.old.now → ChangesBy S.seen S.order code.now run.old run.new (λ made.
        (v : View) → Fits mode v → (c : Config) → IsIn v names.now made.before run.old.now c →
        StepStops v names.now (counting mode budget.old budget.new) made.before c)) }
{
    match &run.now {
        Now::Going(at) => {
            // Part by part: to copy it whole is to wait for the writes of all its parts.
            let point = Point {
                place: at.place,
                count: at.count,
                base: at.base,
                frame: at.frame,
            };
            if point.count == 0 {
                let outcome = go_on(code, names, run, point)?;
                return Ok(outcome);
            }
            run_goal(code, mode, run, point, budget)?;
            Ok(Outcome::More)
        }
        Now::Failing => {
            fail(code, mode, run, budget)?;
            Ok(Outcome::More)
        }
        Now::Raising(_) => {
            unwind(code, run)?;
            Ok(Outcome::More)
        }
        Now::Settling(_) => {
            settle_due(run, budget)?;
            Ok(Outcome::More)
        }
        Now::Telling(_) => Ok(tell(run)),
        Now::Ended(_) => Ok(Outcome::More),
    }
}

/// Runs the constraints that are due, and then goes on where the point is that was noted with them; where a domain is empty, with the
/// newest entry. Where the work is spent before a constraint that is due, the run ends.
#[inline(never)]
fn settle_due<S: KeptStates>(run: &mut Run<S>, budget: &mut Budget) -> Result<(), AllocError>
    ensures spends { (mode : Mode) → Spends mode budget.old budget.new }
    ensures settles { IfOk result (λ _. (it : Box Settling Global) → run.old.now ≡ Now.Settling it →
        Changes S.seen S.order run.old run.new (SettlesDue it budget.old budget.new)) }
    ensures stops { IfErr result (λ _. Changes S.seen S.order run.old run.new (SettlingStops budget.old budget.new)) }
{
    let now = mem::replace(&mut run.now, Now::Failing);
    let Some(settling) = now.into_settling() else {
        return Ok(());
    };
    let Settling { due, point } = Box::into_inner(settling);
    let limit = budget.limit;
    let settled = settle(run.alloc, &mut run.store, &due, &mut budget.work, limit)?;
    run.now = next_now(settled, point);
    Ok(())
}

/// What is next after a propagation, where goals go on at a point.
fn next_now(settled: Settled, point: Point) -> Now
    ensures { result ≡ after_settling settled point }
{
    match settled {
        Settled::Left => Now::Going(point),
        Settled::Lost => Now::Failing,
        Settled::Spent => Now::Ended(End::WorkSpent),
    }
}

/// Tells a text, which is next, and goes on behind it.
#[inline(never)]
fn tell<S: StateStore>(run: &mut Run<S>) -> Outcome
    ensures store { run.new.store ≡ run.old.store }
    ensures arenas { run.new.arenas ≡ run.old.arenas }
    ensures tells { (told : Box Telling Global) → run.old.now ≡ Now.Telling told →
        (result ≡ Outcome.Told told) × (run.new.now ≡ Now.Going told.value.point) }
{
    let now = mem::replace(&mut run.now, Now::Failing);
    let Some(told) = now.into_telling() else {
        return Outcome::More;
    };
    run.now = Now::Going(told.point);
    Outcome::Told(told)
}

/// Goes on behind goals that are done: with a frame, or with an answer of the newest open level or of the query.
fn go_on<S: KeptStates>(
    code: &Code<'_>,
    names: &[NameSlot],
    run: &mut Run<S>,
    point: Point,
) -> Result<Outcome, AllocError>
    ensures answered { IfOk result (λ outcome. RunsAfter outcome run.new.now) }
    ensures is { IfOk result (λ outcome. ChangesBy S.seen S.order code.now run.old run.new (λ made.
        AreNames made.before.loaded.query_slots names.now → (v : View) (c : Config) → PointIsDone made.before point c →
        (mode : Mode) (b : Budget) → StepIs v names.now mode b b made.after made.now c outcome)) }
{
    if let Some(next) = run.arenas.frames.get(point.frame) {
        follow(run, point, next);
        return Ok(Outcome::More);
    }
    if run.arenas.level > 0 {
        answer_level(code, run)?;
        return Ok(Outcome::More);
    }
    match answer(run, names)? {
        Ok(answer) => {
            let boxed = Box::new(run.alloc, answer)?;
            run.now = Now::Failing;
            Ok(Outcome::Answered(boxed))
        }
        Err(ball) => {
            run.now = Now::Ended(End::Raised(ball));
            Ok(Outcome::More)
        }
    }
}

/// Goes on with a point's frame, whose goals are done.
#[inline(always)]
fn follow<S: StateStore>(run: &mut Run<S>, point: Point, next: Point)
    ensures { Changes S.seen S.order run.old run.new (λ made. point.count ≡ 0 → frame_at run.old.arenas.frames point.frame ≡ Some next →
        GoesFrom point made) }
{
    run.now = Now::Going(run.arenas.go_on(point, next));
}

/// An end, answered again.
fn repeated(alloc: Global, end: &End) -> Result<Happening, AllocError>
    ensures ok { IfOk result (λ happening. IsAnswered end.now happening) }
    ensures err { IfErr result (λ _. IsRaised end.now) }
{
    match end {
        End::Done => Ok(Happening::Done),
        End::Raised(ball) => {
            let copied = ball.copy(alloc)?;
            Ok(Happening::Raised(copied))
        }
        End::StepsSpent => Ok(Happening::StepsSpent),
        End::WorkSpent => Ok(Happening::WorkSpent),
        End::Memory => Ok(Happening::Memory),
    }
}
