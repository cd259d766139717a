//! Exceptions: what raises them, and what catches them.
ghost use Rattle.std.specs.Prelude.{◌≡◌, ℕ, Some, codes, IfOk, map, take, drop};
ghost use Rattle.pi_engine_stands.specs.Here.{HoldsArguments};
ghost use Rattle.pi_engine_stands.specs.Fails.{EndsLevel};
ghost use Rattle.pi_terms.specs.Tree.{Tree, Trees, atom};
ghost use Rattle.pi_constraints.specs.Value.{IsAcyclic, value as value_of};
ghost use Rattle.pi_constraints.specs.State.{bindings};
ghost use Rattle.pi_constraints.specs.Store.{IsTerm, Terms};
ghost use Rattle.pi_engine_code.specs.declared.code.Node.TheVariants.{Throw};
ghost use Rattle.pi_engine_arenas.specs.declared.run.Now.TheVariants.{Raising, Ended};
ghost use Rattle.pi_engine_arenas.specs.declared.run.End.TheVariants.{Raised};
ghost use Rattle.pi_engine_arenas.specs.declared.arenas.Kind.TheVariants.{Catch, Exit};
ghost use Rattle.pi_engine_arenas.specs.declared.arenas.Kind.{Kind};
ghost use Rattle.pi_engine_arenas.specs.Arenas.{newest};
ghost use Rattle.pi_engine_arenas.specs.declared.arenas.Entry.{Entry};
ghost use Rattle.pi_engine_stands.specs.Makes.{RunsGoal, IsCopied, raised_for, apply_at, unresolved_for};
ghost use Rattle.pi_engine_stands.specs.Raises.{Raises, RaisesFrom, IsDropped, TellsCaught, collected_below};
ghost use Rattle.pi_engine_stands.specs.Changes.{Changes, ChangesBy};
ghost use Rattle.pi_engine_arenas.specs.Runs.{state_in};

use crate::choices::{alone, come_back};
use crate::levels::enter_level;
use crate::lists::{count_collected, read_value};
use crate::settling::next_after;
use crate::values::value;
use pi_constraints::{Ref, StateStore};
use pi_engine_arenas::{Back, Blocks, End, Kind, Now, Point, Run, Strict, behind_level};
use pi_engine_code::{Code, Node, Operand, Step};
use pi_engine_settle::begin;
use pi_terms::Term;
use pi_unify::{place as place_term, unify};
use std::alloc::AllocError;
use std::mem;

/// Enters a `catch`. What is to be caught is evaluated before the goal, so that its slots hold what they will be needed
/// for.
#[inline(never)]
pub fn enter_catch<S: StateStore>(
    code: &Code<'_>,
    run: &mut Run<S>,
    point: Point,
    step: Step,
    ball: Operand,
) -> Result<(), AllocError>
    ensures { IfOk result (λ _. step.node ≡ Node.Catch ball → ChangesBy S.seen S.order code.now run.old run.new (RunsGoal point step)) }
{
    let _wanted = value(code, run, ball, point.first_slot(step))?;
    enter_level(code, run, point, step, Kind::Catch(point.place))
}

/// Raises a copy of a term.
#[inline(never)]
pub fn throw<S: StateStore>(
    code: &Code<'_>,
    run: &mut Run<S>,
    point: Point,
    step: Step,
    operand: Operand,
) -> Result<(), AllocError>
    ensures { IfOk result (λ _. step.node ≡ Throw operand → ChangesBy S.seen S.order code.now run.old run.new (RunsGoal point step)) }
{
    let term = value(code, run, operand, point.first_slot(step))?;
    let ball = ball_of(run, term)?;
    run.now = Now::Raising(ball);
    Ok(())
}

/// What is raised for a term.
fn ball_of<S: StateStore>(run: &Run<S>, term: Ref) -> Result<Term, AllocError>
    ensures { IfOk result (λ ball. (t : Tree) → IsTerm (S.seen run.exit.now.store) term t →
        IsAcyclic (bindings (state_in S.seen run.exit.now)) →
        ball ≡ raised_for (value_of (bindings (state_in S.seen run.exit.now)) t)) }
{
    let copy = copied(run, term)?;
    match copy {
        Some(ball) => Ok(ball),
        None => too_large(run),
    }
}

/// Raises that a function call, whose entry is the newest, has no value.
#[inline(never)]
pub fn no_value<S: StateStore>(
    code: &Code<'_>,
    run: &mut Run<S>,
    back: Back,
    place: u32,
) -> Result<(), AllocError>
    ensures { IfOk result (λ _. ChangesBy S.seen S.order code.now run.old run.new (λ made. (caller : ℕ) →
        back.kind ≡ apply_at place caller → EndsLevel back made)) }
{
    let step = code.step(place);
    let Node::Apply(predicate, _, _) = step.node else {
        return Ok(());
    };
    let Some(source) = code.source(predicate) else {
        return Ok(());
    };
    run.arenas.pop();
    let arity = code.predicate(predicate).arity;
    take_block(&run.arenas.blocks, back.base, arity, &mut run.terms)?;
    let call = run.store.put_comp(source.name.as_str(), &run.terms)?;
    let ball = unresolved(run, call)?;
    run.now = Now::Raising(ball);
    Ok(())
}

/// What is raised for a function call that has no value.
fn unresolved<S: StateStore>(run: &Run<S>, call: Ref) -> Result<Term, AllocError>
    ensures { IfOk result (λ ball. (t : Tree) → IsTerm (S.seen run.exit.now.store) call t →
        IsAcyclic (bindings (state_in S.seen run.exit.now)) →
        ball ≡ unresolved_for (value_of (bindings (state_in S.seen run.exit.now)) t)) }
{
    let copy = copied(run, call)?;
    match copy {
        Some(copy) => Term::comp(run.alloc, "unresolved_function_call", &[copy]),
        None => too_large(run),
    }
}

/// What so many slots from one on hold, into the room for terms.
pub fn take_block(
    blocks: &Blocks,
    first: usize,
    count: u32,
    terms: &mut Vec<Ref>,
) -> Result<(), AllocError>
    ensures { IfOk result (λ _. (t : Terms) (ts : Trees) → HoldsArguments t blocks.now.slots first count ts →
        map (λ r. Some r) terms.new.items ≡ take count (drop first blocks.now.slots)) }
{
    terms.clear();
    for i in 0..count {
        if let Some(term) = blocks.get(first.saturating_add(i as usize)) {
            terms.push(term)?;
        }
    }
    Ok(())
}

/// A copy of a term outside of the store, with variables from 0 on; None where it is too large.
fn copied<S: StateStore>(run: &Run<S>, term: Ref) -> Result<Option<Term>, AllocError>
    ensures { IfOk result (λ made. (t : Tree) → IsTerm (S.seen run.exit.now.store) term t →
        IsAcyclic (bindings (state_in S.seen run.exit.now)) →
        IsCopied (value_of (bindings (state_in S.seen run.exit.now)) t) made) }
{
    let Some(read) = read_value(run, term)? else {
        return Ok(None);
    };
    Ok(Some(read.renumbered(run.alloc)?))
}

/// What is raised in place of a term that is too large.
pub fn too_large<S: StateStore>(run: &Run<S>) -> Result<Term, AllocError>
    ensures { IfOk result (λ made. made ≡ atom (codes "term_too_large")) }
{
    Term::atom(run.alloc, "term_too_large")
}

/// Hands an exception to the newest entry, which is taken from the stack; without one it ends the run.
#[inline(never)]
pub fn unwind<S: StateStore>(code: &Code<'_>, run: &mut Run<S>) -> Result<(), AllocError>
    ensures { IfOk result (λ _. ChangesBy S.seen S.order code.now run.old run.new (Raises run.old.now)) }
{
    let Some(entry) = run.arenas.newest() else {
        end_raised(run);
        return Ok(());
    };
    let back = entry.back;
    match back.kind {
        Kind::Catch(place) => try_catch(code, run, place),
        Kind::Exit => {
            pass_left(run, back);
            Ok(())
        }
        Kind::Rules(_, _) => {
            drop_entry(run, back);
            Ok(())
        }
        Kind::Facts(_, _) => {
            drop_entry(run, back);
            Ok(())
        }
        Kind::Branches(_, _) => {
            drop_entry(run, back);
            Ok(())
        }
        Kind::Alternatives(_, _) => {
            drop_entry(run, back);
            Ok(())
        }
        Kind::Strict(_) => {
            drop_entry(run, back);
            Ok(())
        }
    }
}

/// An exception that nothing catches ends the run.
fn end_raised<S: StateStore>(run: &mut Run<S>)
    ensures { (ball : Tree) → run.old.now ≡ Raising ball → run.new.now ≡ Ended (Raised ball) }
{
    let now = mem::replace(&mut run.now, Now::Failing);
    if let Some(ball) = now.into_ball() {
        run.now = Now::Ended(End::Raised(ball));
    }
}

/// Drops the newest entry, which catches nothing, with what was made since, and the values that were collected for it.
fn drop_entry<S: StateStore>(run: &mut Run<S>, back: Back)
    ensures { Changes S.seen S.order run.old run.new (λ made. IsDropped back.kind →
        RaisesFrom back run.old.now made) }
{
    let first = collected_before(back.kind, count_collected(run));
    run.arenas.collected.truncate(first);
    let number = run.arenas.count();
    run.arenas.leave(number, back);
}

/// How many values were collected before an entry of this kind, where there are so many now.
fn collected_before(kind: Kind, count: usize) -> usize
    ensures { result ≡ collected_below kind count }
{
    match kind {
        Kind::Strict(strict) => collected_before_level(strict, count),
        Kind::Rules(_, _) => count,
        Kind::Facts(_, _) => count,
        Kind::Branches(_, _) => count,
        Kind::Alternatives(_, _) => count,
        Kind::Catch(_) => count,
        Kind::Exit => count,
    }
}

fn collected_before_level(strict: Strict, count: usize) -> usize
    ensures { result ≡ collected_below (Kind.Strict strict) count }
{
    match strict {
        Strict::Collect(_, first) => first,
        Strict::Once(_) => count,
        Strict::Not(_) => count,
        Strict::If(_) => count,
        Strict::Guard(_, _) => count,
        Strict::Apply(_, _) => count,
        Strict::Count(_, _) => count,
        Strict::Search(_) => count,
    }
}

/// Drops a `catch` that was left, with all above it: the newest entry says so, and what is raised comes from behind it.
fn pass_left<S: StateStore>(run: &mut Run<S>, exit: Back)
    ensures { Changes S.seen S.order run.old run.new (λ made. exit.kind ≡ Exit → RaisesFrom exit run.old.now made) }
{
    if let Some(entry) = run.arenas.entry(exit.level) {
        let back = entry.back;
        run.arenas.leave(exit.level, back);
    }
}

/// Runs the handler of a `catch` from the state of its entry, where its ball unifies with the one that was raised.
fn try_catch<S: StateStore>(code: &Code<'_>, run: &mut Run<S>, place: u32) -> Result<(), AllocError>
    ensures { IfOk result (λ _. ChangesBy S.seen S.order code.now run.old run.new (λ made. (x : Entry S.Mark) →
        newest run.old.arenas.entries.items ≡ Some x → x.back.kind ≡ Catch place → Raises run.old.now made)) }
{
    come_back(run);
    let Some(entry) = run.arenas.newest() else {
        return Ok(());
    };
    let back = entry.back;
    run.arenas.pop();
    let now = mem::replace(&mut run.now, Now::Failing);
    let Some(ball) = now.into_ball() else {
        return Ok(());
    };
    let handler = alone(code.child(place, 1), back.base, back.frame);
    let caught = catch_ball(code, run, back, code.step(place), &ball, handler)?;
    let Some(next) = caught else {
        run.now = Now::Raising(ball);
        return Ok(());
    };
    run.now = next;
    Ok(())
}

/// What is next where the ball of a `catch` unifies with one that was raised: its handler is at a point. None where it doesn't.
fn catch_ball<S: StateStore>(
    code: &Code<'_>,
    run: &mut Run<S>,
    back: Back,
    step: Step,
    ball: &Term,
    handler: Point,
) -> Result<Option<Now>, AllocError>
    ensures { IfOk result (λ next. ChangesBy S.seen S.order code.now run.old run.new (TellsCaught back step ball.now handler next)) }
{
    let Node::Catch(operand) = step.node else {
        return Ok(None);
    };
    let since = begin(&mut run.store)?;
    let wanted = value(code, run, operand, behind_level(back).first_slot(step))?;
    let raised = place_term(run.alloc, &mut run.store, ball)?;
    // What a look says of all terms: they speak of variables that were made.
    let _root = run.store.look(wanted);
    if !unify(run.alloc, &mut run.store, wanted, raised)? {
        return Ok(None);
    }
    let next = next_after(run.alloc, &run.store, &since, true, handler)?;
    Ok(Some(next))
}
