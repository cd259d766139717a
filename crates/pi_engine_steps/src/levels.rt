//! Levels: how they are entered, what an answer of their goal does, and what it does that there is no further one.
ghost use Rattle.std.specs.Prelude.{◌≡◌, ◌≢◌, ℕ, Some, IfOk, IfErr, length, slice_get};
ghost use Rattle.pi_engine_code.specs.declared.code.Predicate.{Predicate};
ghost use Rattle.pi_engine_arenas.specs.Arenas.{view_of, IsLevel};
ghost use Rattle.pi_engine_stands.specs.Makes.{RunsGoal, AnswersLevel, AnswersOpen, IsPassed, level_kind, once_at, not_at, if_at, count_at, guard_at, EntersCatch};
ghost use Rattle.pi_engine_arenas.specs.declared.arenas.Back.{Back};
ghost use Rattle.pi_engine_stands.specs.Fails.{Fails, PassesOver, EndsLevel};
ghost use Rattle.pi_engine_stands.specs.Changes.{Changes, ChangesBy};
ghost use Rattle.pi_engine_stands.specs.Goes.{counting};
ghost use Rattle.pi_meaning.specs.Machine.Budget.{Counts};
ghost use Rattle.pi_engine_arenas.specs.declared.arenas.Alternatives.{Alternatives};

use crate::choices::{come_back, next_branch, one_goal, push_entry};
use crate::facts::retry_facts;
use crate::labels::try_alternative;
use crate::lists::{add_value, give_list};
use crate::raises::no_value;
use crate::rules::{call_of, retry, take_guarded};
use crate::search::answer_search;
use crate::search_ends::end_search;
use crate::values::slot_at;
use pi_constraints::{KeptStates, StateStore};
use pi_engine_arenas::{Back, End, Kind, Now, Point, Run, Strict, behind_level};
use pi_engine_code::{Code, Node, Step};
use pi_meaning::{Budget, Mode};
use std::alloc::AllocError;

/// Enters a level: its first child goal is run, behind which no frame says what follows.
#[inline(never)]
pub fn enter_level<S: StateStore>(
    code: &Code<'_>,
    run: &mut Run<S>,
    point: Point,
    step: Step,
    kind: Kind,
) -> Result<(), AllocError>
    ensures levels { IfOk result (λ _. level_kind point.place (length run.old.arenas.collected.items) step.node ≡ Some kind →
        ChangesBy S.seen S.order code.now run.old run.new (RunsGoal point step)) }
    ensures catches { IfOk result (λ _. kind ≡ Kind.Catch point.place →
        ChangesBy S.seen S.order code.now run.old run.new (EntersCatch point step)) }
{
    let frame = run.arenas.frame_behind(point, step)?;
    push_entry(run, point.base, frame, kind)?;
    run.arenas.open();
    run.now = one_goal(code.child(point.place, 0), point.base, 0);
    Ok(())
}

/// The newest open level, which there is, has an answer.
#[inline(never)]
pub fn answer_level<S: KeptStates>(code: &Code<'_>, run: &mut Run<S>) -> Result<(), AllocError>
    ensures { IfOk result (λ _. ChangesBy S.seen S.order code.now run.old run.new AnswersOpen) }
{
    let level = run.arenas.level;
    let Some(entry) = run.arenas.entry(level) else {
        run.now = Now::Failing;
        return Ok(());
    };
    let back = entry.back;
    match back.kind {
        Kind::Strict(strict) => answer_strict(code, run, level, back, strict),
        Kind::Catch(_) => leave_catch(run, level, back),
        Kind::Rules(_, _) => {
            run.now = Now::Failing;
            Ok(())
        }
        Kind::Facts(_, _) => {
            run.now = Now::Failing;
            Ok(())
        }
        Kind::Branches(_, _) => {
            run.now = Now::Failing;
            Ok(())
        }
        Kind::Alternatives(_, _) => {
            run.now = Now::Failing;
            Ok(())
        }
        Kind::Exit => {
            run.now = Now::Failing;
            Ok(())
        }
    }
}

/// What a strict level makes of an answer. A function call has its answer by a value, and none here.
fn answer_strict<S: KeptStates>(
    code: &Code<'_>,
    run: &mut Run<S>,
    level: usize,
    back: Back,
    strict: Strict,
) -> Result<(), AllocError>
    ensures { IfOk result (λ _. ChangesBy S.seen S.order code.now run.old run.new (λ made. IsLevel (view_of run.old.arenas) level back →
        back.kind ≡ Kind.Strict strict → AnswersOpen made)) }
{
    match strict {
        Strict::Once(_) => {
            leave_once(run, level, back);
            Ok(())
        }
        Strict::Not(_) => {
            leave_not(run, level, back);
            Ok(())
        }
        Strict::If(place) => {
            leave_if(code, run, level, back, place);
            Ok(())
        }
        Strict::Guard(predicate, rule) => take_guarded(code, run, level, back, predicate, rule),
        Strict::Collect(place, _) => add_value(code, run, back, place),
        Strict::Count(place, count) => count_answer(run, level, place, count),
        Strict::Search(site) => answer_search(code, run, level, back, site),
        Strict::Apply(_, _) => {
            run.now = Now::Failing;
            Ok(())
        }
    }
}

/// Leaves a `once` by the first answer of its goal.
fn leave_once<S: StateStore>(run: &mut Run<S>, level: usize, back: Back)
    ensures { Changes S.seen S.order run.old run.new (λ made. (place : ℕ) → IsLevel (view_of run.old.arenas) level back →
        back.kind ≡ once_at place → AnswersLevel made) }
{
    run.now = Now::Going(run.arenas.leave(level, back));
}

/// Leaves a `not` by an answer of its goal: it has none itself.
fn leave_not<S: StateStore>(run: &mut Run<S>, level: usize, back: Back)
    ensures { Changes S.seen S.order run.old run.new (λ made. (place : ℕ) → IsLevel (view_of run.old.arenas) level back →
        back.kind ≡ not_at place → AnswersLevel made) }
{
    run.arenas.leave(level, back);
    run.now = Now::Failing;
}

/// Leaves the condition of an `if` by its first answer: the goal for that case is next.
fn leave_if<S: StateStore>(code: &Code<'_>, run: &mut Run<S>, level: usize, back: Back, place: u32)
    ensures { ChangesBy S.seen S.order code.now run.old run.new (λ made. IsLevel (view_of run.old.arenas) level back →
        back.kind ≡ if_at place → AnswersLevel made) }
{
    let next = run.arenas.leave(level, back);
    run.now = one_goal(code.child(place, 1), next.base, next.frame);
}

/// Counts an answer of a level's goal. The next one is looked for.
fn count_answer<S: StateStore>(
    run: &mut Run<S>,
    level: usize,
    place: u32,
    count: u64,
) -> Result<(), AllocError>
    ensures { IfOk result (λ _. Changes S.seen S.order run.old run.new (λ made. (back : Back) →
        IsLevel (view_of run.old.arenas) level back → back.kind ≡ count_at place count → AnswersLevel made)) }
{
    let Some(more) = count.checked_add(1) else {
        return Err(AllocError);
    };
    let kind = Kind::Strict(Strict::Count(place, more));
    run.arenas.set_kind(level, kind);
    run.now = Now::Failing;
    Ok(())
}

/// Leaves a `catch` by an answer. Where its goal has choices left, the level stays with them, below an exit.
fn leave_catch<S: StateStore>(run: &mut Run<S>, level: usize, back: Back) -> Result<(), AllocError>
    ensures { IfOk result (λ _. Changes S.seen S.order run.old run.new (λ made. (place : ℕ) → IsLevel (view_of run.old.arenas) level back →
        back.kind ≡ Kind.Catch place → AnswersLevel made)) }
{
    if run.arenas.count() == level {
        run.now = Now::Going(run.arenas.leave(level, back));
        return Ok(());
    }
    push_entry(run, back.base, back.frame, Kind::Exit)?;
    run.arenas.level = back.level;
    run.now = Now::Going(behind_level(back));
    Ok(())
}

/// Goes on with the newest entry where a goal has no further answer; without one the run is done. An alternative of a variable that is
/// labelled counts a Tick.
pub fn fail<S: KeptStates>(
    code: &Code<'_>,
    mode: Mode,
    run: &mut Run<S>,
    budget: &mut Budget,
) -> Result<(), AllocError>
    ensures counts { Counts mode budget.old budget.new }
    ensures fails { IfOk result (λ _. ChangesBy S.seen S.order code.now run.old run.new (Fails (counting mode budget.old budget.new))) }
    ensures stops { IfErr result (λ _. budget.new ≡ budget.old) }
{
    come_back(run);
    let Some(entry) = run.arenas.newest() else {
        run.now = Now::Ended(End::Done);
        return Ok(());
    };
    match entry.back.kind {
        Kind::Rules(predicate, next) => {
            let call = call_of(&entry.back, predicate);
            retry(code, run, &call, next)
        }
        Kind::Alternatives(place, left) => {
            let back = entry.back;
            try_alternative(mode, run, back, place, left, budget)
        }
        _ => {
            let back = entry.back;
            go_on_with(code, run, back)
        }
    }
}

/// Goes on with the newest entry, which was come back to and waits for neither a call's rules nor alternatives of a labelling. It
/// stands by itself, so that an entry of rules is read in part alone.
#[inline(never)]
fn go_on_with<S: KeptStates>(
    code: &Code<'_>,
    run: &mut Run<S>,
    back: Back,
) -> Result<(), AllocError>
    ensures { IfOk result (λ _. ChangesBy S.seen S.order code.now run.old run.new
        (λ made. ((predicate next : ℕ) → back.kind ≢ Kind.Rules predicate next) →
        ((place : ℕ) (left : Alternatives) → back.kind ≢ Kind.Alternatives place left) → PassesOver back made)) }
{
    match back.kind {
        Kind::Rules(_, _) => {
            run.now = Now::Failing;
            Ok(())
        }
        Kind::Alternatives(_, _) => {
            run.now = Now::Failing;
            Ok(())
        }
        Kind::Facts(predicate, next) => retry_facts(code, run, back, predicate, next),
        Kind::Branches(place, count) => {
            next_branch(code, run, back, place, count);
            Ok(())
        }
        Kind::Strict(strict) => end_strict(code, run, back, strict),
        Kind::Catch(_) => {
            pass_over(run, back);
            Ok(())
        }
        Kind::Exit => {
            pass_over(run, back);
            Ok(())
        }
    }
}

/// Passes the newest entry over, which has no further answer either.
#[inline(never)]
fn pass_over<S: StateStore>(run: &mut Run<S>, back: Back)
    ensures { Changes S.seen S.order run.old run.new (λ made. IsPassed back.kind →
        PassesOver back made) }
{
    run.arenas.pop();
    run.now = Now::Failing;
}

/// The goal of a strict level, whose entry is the newest, has no further answer.
#[inline(never)]
fn end_strict<S: KeptStates>(
    code: &Code<'_>,
    run: &mut Run<S>,
    back: Back,
    strict: Strict,
) -> Result<(), AllocError>
    ensures { IfOk result (λ _. ChangesBy S.seen S.order code.now run.old run.new (λ made. back.kind ≡ Kind.Strict strict →
        EndsLevel back made)) }
{
    match strict {
        Strict::Once(_) => {
            pass_over(run, back);
            Ok(())
        }
        Strict::Not(_) => {
            end_not(run, back);
            Ok(())
        }
        Strict::If(place) => {
            end_if(code, run, back, place);
            Ok(())
        }
        Strict::Guard(predicate, rule) => end_guard(code, run, back, predicate, rule),
        Strict::Apply(place, _) => no_value(code, run, back, place),
        Strict::Collect(place, first) => give_list(code, run, back, place, first),
        Strict::Count(place, count) => give_count(code, run, back, place, count),
        Strict::Search(site) => end_search(run, back, site),
    }
}

/// Goes on with the rules behind one whose condition has no answer.
fn end_guard<S: StateStore>(
    code: &Code<'_>,
    run: &mut Run<S>,
    back: Back,
    predicate: u32,
    rule: u32,
) -> Result<(), AllocError>
    ensures { IfOk result (λ _. ChangesBy S.seen S.order code.now run.old run.new (λ made. back.kind ≡ guard_at predicate rule →
        EndsLevel back made)) }
{
    let next = rule.saturating_add(1).min(end_of_rules(code, predicate));
    retry(code, run, &call_of(&back, predicate), next)
}

/// Where the rules of a predicate end.
fn end_of_rules(code: &Code<'_>, predicate: u32) -> u32
    ensures { (p : Predicate) → slice_get code.now.predicates.items predicate ≡ Some p → result ≡ p.end }
{
    code.predicate(predicate).end
}

/// Goes on behind a `not`, whose goal has no answer.
fn end_not<S: StateStore>(run: &mut Run<S>, back: Back)
    ensures { Changes S.seen S.order run.old run.new (λ made. (place : ℕ) → back.kind ≡ not_at place →
        EndsLevel back made) }
{
    run.arenas.pop();
    run.now = Now::Going(behind_level(back));
}

/// Runs the goal of an `if` for the case that its condition has no answer.
fn end_if<S: StateStore>(code: &Code<'_>, run: &mut Run<S>, back: Back, place: u32)
    ensures { ChangesBy S.seen S.order code.now run.old run.new (λ made. back.kind ≡ if_at place →
        EndsLevel back made) }
{
    run.arenas.pop();
    run.now = one_goal(code.child(place, 2), back.base, back.frame);
}

/// The number of answers goes into the slot for it.
fn give_count<S: StateStore>(
    code: &Code<'_>,
    run: &mut Run<S>,
    back: Back,
    place: u32,
    count: u64,
) -> Result<(), AllocError>
    ensures { IfOk result (λ _. ChangesBy S.seen S.order code.now run.old run.new (λ made. back.kind ≡ count_at place count →
        EndsLevel back made)) }
{
    let step = code.step(place);
    let Node::Count(into) = step.node else {
        return Ok(());
    };
    run.arenas.pop();
    let number = run.store.put_int(i128::from(count))?;
    let next = behind_level(back);
    let slot = slot_at(next.first_slot(step), into);
    run.arenas.blocks.set(slot, number)?;
    run.now = Now::Going(next);
    Ok(())
}
