//! The rules of a call: heads, conditions, and the choices that they leave.
ghost use Rattle.std.specs.Prelude.{◌≡◌, ◌⊎◌, ℕ, ◌+◌, ◌≤◌, ◌<◌, true, false, Some, IfOk, MatchOption, length, slice_get};
ghost use Rattle.pi_engine_arenas.specs.Arenas.{keeping};
ghost use Rattle.pi_engine_stands.specs.Tries.{KeepsCall, TakesRule, EntersGuard, AppliesRule, TakesGuarded, TriesRules};
ghost use Rattle.pi_engine_stands.specs.Changes.{Changes, ChangesBy};
ghost use Rattle.pi_engine_arenas.specs.Runs.{across};

use crate::choices::{one_goal, push_entry_at};
use crate::heads::matches;
use pi_constraints::StateStore;
use pi_engine_arenas::{Back, Blocks, Call, Kind, Now, Point, Run, Strict};
use pi_engine_code::{Code, Predicate, Rule};
use std::alloc::AllocError;

/// Goes on with the first of the call's rules from `from` on whose head matches, where this is the call's predicate.
/// `is_again` says that the newest entry is this call's; it stays only where it is needed further.
pub fn try_rules<S: StateStore>(
    code: &Code<'_>,
    run: &mut Run<S>,
    call: &Call,
    predicate: &Predicate,
    from: u32,
    is_again: bool,
) -> Result<(), AllocError>
    ensures { IfOk result (λ _. ChangesBy S.seen S.order code.now run.old run.new
        (λ made. slice_get code.now.predicates.items call.now.predicate ≡ Some predicate.now →
        TriesRules call.now from is_again made)) }
{
    for number in from..predicate.end {
        if let Some(rule) = code.rule(number) {
            if matches(code, run, call, rule, number, predicate.arity)? {
                return apply(run, call, predicate, rule, number, is_again);
            }
        }
    }
    if is_again {
        run.arenas.pop();
    }
    run.now = Now::Failing;
    Ok(())
}

/// Goes on with a call's rules from one on, for which the newest entry was kept.
#[inline(always)]
pub fn retry<S: StateStore>(
    code: &Code<'_>,
    run: &mut Run<S>,
    call: &Call,
    from: u32,
) -> Result<(), AllocError>
    ensures { IfOk result (λ _. ChangesBy S.seen S.order code.now run.old run.new (TriesRules call.now from true)) }
{
    let Some(called) = code.predicate_there(call.predicate) else {
        run.now = Now::Failing;
        return Ok(());
    };
    try_rules(code, run, call, called, from, true)
}

/// The call whose entry this is.
pub fn call_of(back: &Back, predicate: u32) -> Call
    ensures predicate { result.predicate ≡ predicate }
    ensures base { result.base ≡ back.now.base }
    ensures frame { result.frame ≡ back.now.frame }
{
    Call {
        predicate,
        base: back.base,
        frame: back.frame,
    }
}

/// Where the slots of the rules of a call begin: behind its arguments.
pub fn first_slot(blocks: &Blocks, call: &Call, arity: u32) -> usize
    ensures { call.now.base + arity ≤ length blocks.now.slots → result ≡ call.now.base + arity }
{
    let count = blocks.count();
    call.base.saturating_add(arity as usize).min(count)
}

/// Goes on with a rule whose head matches: with its condition, where it has one, else with its body.
fn apply<S: StateStore>(
    run: &mut Run<S>,
    call: &Call,
    predicate: &Predicate,
    rule: &Rule,
    number: u32,
    is_again: bool,
) -> Result<(), AllocError>
    ensures { IfOk result (λ _. Changes S.seen S.order run.old run.new (AppliesRule call.now number is_again predicate.now rule.now)) }
{
    match rule.guard {
        None => take_rule(run, call, predicate, rule, number, is_again),
        Some(guard) => enter_guard(run, call, predicate, guard, number, is_again),
    }
}

/// Runs a rule's body, whose head matches and whose condition has an answer. An entry is left where a later rule may apply
/// too.
#[inline(always)]
fn take_rule<S: StateStore>(
    run: &mut Run<S>,
    call: &Call,
    predicate: &Predicate,
    rule: &Rule,
    number: u32,
    is_again: bool,
) -> Result<(), AllocError>
    ensures { IfOk result (λ _. Changes S.seen S.order run.old run.new (TakesRule call.now number is_again predicate.now rule.now)) }
{
    if let Some(next) = later_rule(rule, number, predicate.end) {
        let kind = Kind::Rules(call.predicate, next);
        keep(run, call, predicate.arity, kind, is_again)?;
    } else if is_again {
        run.arenas.pop();
    }
    run.now = Now::Going(Point {
        place: rule.body,
        count: rule.goals,
        base: call.base,
        frame: call.frame,
    });
    Ok(())
}

/// The rule behind one with this number, where it may apply too.
fn later_rule(rule: &Rule, number: u32, end: u32) -> Option<u32>
    ensures { MatchOption result ((rule.now.leaves_others ≡ false) ⊎ (end ≤ number + 1)) (λ next. (rule.now.leaves_others ≡ true) ×
        (next ≡ number + 1) × (next < end)) }
{
    let next = number.saturating_add(1);
    if rule.leaves_others && next < end {
        Some(next)
    } else {
        None
    }
}

/// Runs a rule's condition: a level that comes back to the call as it was made.
#[inline(never)]
fn enter_guard<S: StateStore>(
    run: &mut Run<S>,
    call: &Call,
    predicate: &Predicate,
    guard: u32,
    number: u32,
    is_again: bool,
) -> Result<(), AllocError>
    ensures { IfOk result (λ _. Changes S.seen S.order run.old run.new (EntersGuard call.now number is_again predicate.now guard)) }
{
    let kind = Kind::Strict(Strict::Guard(call.predicate, number));
    keep(run, call, predicate.arity, kind, is_again)?;
    run.arenas.open();
    run.now = one_goal(guard, call.base, 0);
    Ok(())
}

/// Keeps the call as it was made, its arguments alone, in the newest entry where that is the call's, else in one more.
pub fn keep<S: StateStore>(
    run: &mut Run<S>,
    call: &Call,
    arity: u32,
    kind: Kind,
    is_again: bool,
) -> Result<(), AllocError>
    ensures { IfOk result (λ _. call.now.base + arity ≤ length run.old.arenas.blocks.slots →
        KeepsCall S.order (across S.seen run.old run.new) (keeping (call.now.base + arity) call.now.base call.now.frame kind) is_again) }
{
    if is_again {
        run.arenas.set_newest(kind);
        return Ok(());
    }
    let slots = first_slot(&run.arenas.blocks, call, arity);
    push_entry_at(run, slots, call.base, call.frame, kind)
}

/// Takes a rule whose condition, the level with this number, has an answer.
#[inline(never)]
pub fn take_guarded<S: StateStore>(
    code: &Code<'_>,
    run: &mut Run<S>,
    level: usize,
    back: Back,
    predicate: u32,
    number: u32,
) -> Result<(), AllocError>
    ensures { IfOk result (λ _. ChangesBy S.seen S.order code.now run.old run.new (TakesGuarded level back predicate number)) }
{
    let Some(rule) = code.rule(number) else {
        run.now = Now::Failing;
        return Ok(());
    };
    let slots = end_of_slots(&run.arenas.blocks, back, rule);
    run.arenas.return_to(level, back, slots);
    let called = code.predicate(predicate);
    take_rule(run, &call_of(&back, predicate), &called, rule, number, true)
}

/// Where the slots of a rule end, whose call was kept with its arguments alone.
fn end_of_slots(blocks: &Blocks, back: Back, rule: &Rule) -> usize
    ensures { (n : ℕ) → n ≤ length blocks.now.slots → n ≤ back.blocks.slots + rule.now.slots → n ≤ result }
{
    let count = blocks.count();
    let end = back.blocks.slots.saturating_add(rule.slots as usize);
    end.min(count)
}
