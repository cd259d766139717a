//! Unification, and calls of predicates and functions.
ghost use Rattle.std.specs.Prelude.{◌≡◌, ℕ, Some, IfOk, slice_get};
ghost use Rattle.pi_engine_code.specs.declared.code.Node.TheVariants.{Unify};
ghost use Rattle.pi_terms.specs.Tree.{trees_of};
ghost use Rattle.pi_terms.specs.Places.{Places};
ghost use Rattle.pi_constraints.specs.Store.{Terms};
ghost use Rattle.pi_constraints.specs.Evaluation.{evaluated_all};
ghost use Rattle.pi_engine_code.specs.Code.{tables_of};
ghost use Rattle.pi_engine_stands.specs.Here.{Block, AreReadable};
ghost use Rattle.pi_engine_arenas.specs.Frames.{slot_number};
ghost use Rattle.pi_engine_stands.specs.Evaluates.{operand_trees, EvaluatesAll};
ghost use Rattle.pi_constraints.specs.Store.{Extend};
ghost use Rattle.pi_engine_arenas.specs.declared.arenas.Kind.{Kind};
ghost use Rattle.pi_engine_stands.specs.Makes.{RunsGoal, apply_at};
ghost use Rattle.pi_engine_stands.specs.Gives.{GivesValue, without_call};
ghost use Rattle.pi_engine_stands.specs.Changes.{ChangesBy, HoldsIn};
ghost use Rattle.pi_engine_arenas.specs.Runs.{across, state_in, terms_in};

use crate::choices::push_entry;
use crate::facts::try_clauses;
use crate::rules::try_rules;
use crate::settling::next_after;
use crate::values::{slot_at, value};
use pi_constraints::StateStore;
use pi_engine_arenas::{Back, BlocksMark, Call, Kind, Now, Point, Run, Strict, behind};
use pi_engine_code::{Code, Node, Operand, Predicate, Step};
use pi_engine_settle::begin;
use pi_unify::unify;
use std::alloc::AllocError;

/// Makes two terms equal, or fails.
#[inline(never)]
pub fn make_equal<S: StateStore>(
    code: &Code<'_>,
    run: &mut Run<S>,
    point: Point,
    step: Step,
    left: Operand,
    right: Operand,
) -> Result<(), AllocError>
    ensures { IfOk result (λ _. step.node ≡ Unify left right → ChangesBy S.seen S.order code.now run.old run.new (RunsGoal point step)) }
{
    let first = point.first_slot(step);
    let a = value(code, run, left, first)?;
    let b = value(code, run, right, first)?;
    // What a look says of all terms: they speak of variables that were made.
    let _root = run.store.look(a);
    let since = begin(&mut run.store)?;
    let one = unify(run.alloc, &mut run.store, a, b)?;
    let next = next_after(run.alloc, &run.store, &since, one, behind(point, step))?;
    run.now = next;
    Ok(())
}

/// Calls a predicate, which the tables have under this number, and whose arguments begin at an operand. A last call gives the
/// slots of its body back first.
#[inline(always)]
pub fn call<S: StateStore>(
    code: &Code<'_>,
    run: &mut Run<S>,
    point: Point,
    step: Step,
    called: &Predicate,
    predicate: u32,
    operands: u32,
) -> Result<(), AllocError>
    ensures { IfOk result (λ _. step.node ≡ Node.Call predicate operands →
        ChangesBy S.seen S.order code.now run.old run.new
        (λ made. slice_get code.now.predicates.items predicate ≡ Some called.now → RunsGoal point step made)) }
{
    take_arguments(code, run, point.first_slot(step), operands, called.arity)?;
    let frame = run.arenas.frame_behind(point, step)?;
    if step.is_last {
        run.arenas.blocks.truncate(point.base);
    }
    let base = run.arenas.blocks.count();
    run.arenas.blocks.push_terms(&run.terms)?;
    let call = Call {
        predicate,
        base,
        frame,
    };
    try_clauses(code, run, &call, called)
}

/// Calls a function: a level that takes the first value. The level keeps the arguments, so that the call can be told where
/// it has no value.
// It stands apart from `call`: a last call of a predicate gives slots back between its arguments and its block, a function's
// call opens a level, and one form for both would ask on each call which it is.
#[inline(never)]
pub fn apply<S: StateStore>(
    code: &Code<'_>,
    run: &mut Run<S>,
    point: Point,
    step: Step,
    called: &Predicate,
    predicate: u32,
    operands: u32,
) -> Result<(), AllocError>
    ensures { IfOk result (λ _. (into : ℕ) → step.node ≡ Node.Apply predicate operands into →
        ChangesBy S.seen S.order code.now run.old run.new
        (λ made. slice_get code.now.predicates.items predicate ≡ Some called.now → RunsGoal point step made)) }
{
    take_arguments(code, run, point.first_slot(step), operands, called.arity)?;
    let frame = run.arenas.frame_behind(point, step)?;
    let base = run.arenas.blocks.count();
    run.arenas.blocks.push_terms(&run.terms)?;
    let kind = Kind::Strict(Strict::Apply(point.place, point.base));
    push_entry(run, base, frame, kind)?;
    run.arenas.open();
    let call = Call {
        predicate,
        base,
        frame: 0,
    };
    try_rules(code, run, &call, called, called.first, false)
}

/// The arguments of a call, into the room for them.
#[inline(always)]
pub fn take_arguments<S: StateStore>(
    code: &Code<'_>,
    run: &mut Run<S>,
    first: usize,
    operands: u32,
    arity: u32,
) -> Result<(), AllocError>
    ensures ok { IfOk result (λ _. (t : Terms) (b : Block) (e : Places) → first ≡ slot_number b.base b.first →
        AreReadable (tables_of t code.now) b operands arity → Extend t (terms_in S.seen run.old) →
        HoldsIn S.seen run.old b e →
        EvaluatesAll b (across S.seen run.old run.new)
        (evaluated_all (trees_of (operand_trees (tables_of t code.now) operands arity)) e (state_in S.seen run.old))
        run.new.terms.items) }
{
    run.terms.clear();
    let start = operands as usize;
    for i in 0..arity {
        if let Some(operand) = code.operand(start.saturating_add(i as usize)) {
            let term = value(code, run, operand, first)?;
            run.terms.push(term)?;
        }
    }
    Ok(())
}

/// The value of a function's clause: it ends the call, which is the newest open level, and goes into the call's slot.
#[inline(never)]
pub fn give_value<S: StateStore>(
    code: &Code<'_>,
    run: &mut Run<S>,
    point: Point,
    step: Step,
    operand: Operand,
) -> Result<(), AllocError>
    ensures { IfOk result (λ _. step.node ≡ Node.Value operand →
        ChangesBy S.seen S.order code.now run.old run.new (GivesValue point step)) }
{
    let term = value(code, run, operand, point.first_slot(step))?;
    run.now = Now::Failing;
    let level = run.arenas.level;
    let Some(entry) = run.arenas.entry(level) else {
        return Ok(());
    };
    let back = entry.back;
    let Some(site) = call_site(back.kind) else {
        return Ok(());
    };
    let called = code.step(site.place);
    let Node::Apply(_, _, into) = called.node else {
        return Ok(());
    };
    let next = run.arenas.leave(level, to_caller(back, site.base));
    let slot = slot_at(next.first_slot(called), into);
    run.arenas.blocks.set(slot, term)?;
    run.now = Now::Going(next);
    Ok(())
}

/// Where a function was called: the place of the goal, and where the caller's block begins.
#[derive(Clone, Copy)]
struct CallSite {
    place: u32,
    base: usize,
}

/// Where the function was called whose level is of this kind; None for all other kinds.
fn call_site(kind: Kind) -> Option<CallSite>
    ensures { (place caller : ℕ) → kind ≡ apply_at place caller → result ≡ Some (record { place = place; base = caller }) }
{
    match kind {
        Kind::Strict(strict) => call_site_of_level(strict),
        Kind::Rules(_, _) => None,
        Kind::Facts(_, _) => None,
        Kind::Branches(_, _) => None,
        Kind::Alternatives(_, _) => None,
        Kind::Catch(_) => None,
        Kind::Exit => None,
    }
}

fn call_site_of_level(strict: Strict) -> Option<CallSite>
    ensures { (place caller : ℕ) → Kind.Strict strict ≡ apply_at place caller → result ≡ Some (record { place = place; base = caller }) }
{
    match strict {
        Strict::Apply(place, base) => Some(CallSite { place, base }),
        Strict::Once(_) => None,
        Strict::Not(_) => None,
        Strict::If(_) => None,
        Strict::Guard(_, _) => None,
        Strict::Collect(_, _) => None,
        Strict::Count(_, _) => None,
        Strict::Search(_) => None,
    }
}

/// What the level of a function call or of a search comes back to once it has its value: the caller's block, with nothing of the call's.
pub(crate) fn to_caller(back: Back, caller: usize) -> Back
    ensures { result ≡ without_call back caller }
{
    let blocks = BlocksMark {
        slots: back.base,
        trail: back.blocks.trail,
    };
    Back {
        frames: back.frames,
        blocks,
        base: caller,
        frame: back.frame,
        level: back.level,
        kind: back.kind,
    }
}
