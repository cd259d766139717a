//! The facts of a call: those that unify with it, and the choice that they leave.
ghost use Rattle.std.specs.Prelude.{◌≡◌, ◌+◌, ◌≤◌, ◌<◌, true, false, [], List, Some, IfOk, length, map, slice_get};
ghost use Rattle.std.specs.List.{list_any};
ghost use Rattle.pi_terms.specs.Tree.{Trees, comp};
ghost use Rattle.pi_constraints.specs.State.{bindings};
ghost use Rattle.pi_engine_stands.specs.Rests.{Rests};
ghost use Rattle.pi_constraints.specs.Value.{IsAcyclic};
ghost use Rattle.pi_constraints.specs.Store.{IsTerm, Stays};
ghost use Rattle.pi_core.specs.CoreTree.{PredTree, clause_tree, pred_tree};
ghost use Rattle.pi_core.specs.declared.core_program.CoreClause.{CoreClause as Clause};
ghost use Rattle.pi_syntax.specs.declared.program.Mode.{Mode};
ghost use Rattle.pi_meaning.specs.CoreMeaning.Facts.{fits_modes};
ghost use Rattle.pi_engine_code.specs.Code.{preds_of};
ghost use Rattle.pi_engine_arenas.specs.declared.arenas.Kind.TheVariants.{Facts};
ghost use Rattle.pi_engine_arenas.specs.declared.run.Now.TheVariants.{Failing};
ghost use Rattle.pi_engine_arenas.specs.Arenas.{view_of, DropsNewest};
ghost use Rattle.pi_engine_stands.specs.Tries.{LeavesLater, TriesClauses, TriesFacts};
ghost use Rattle.pi_engine_stands.specs.Fails.{PassesOver};
ghost use Rattle.pi_engine_steps.specs.Facts.{TakesFact, TriesSome, asking};
ghost use Rattle.pi_engine_stands.specs.Changes.{ChangesBy, HoldsArgumentsIn};
ghost use Rattle.pi_engine_arenas.specs.Runs.{across, state_in};

use crate::raises::take_block;
use crate::rules::{call_of, keep, try_rules};
use crate::settling::next_after;
use pi_constraints::{Ref, StateStore};
use pi_core::CoreClause;
use pi_engine_arenas::{Back, Call, Kind, Now, Point, Run};
use pi_engine_code::{Code, Predicate};
use pi_engine_facts::{fits_call, next_unifying, unify_fact};
use pi_engine_settle::begin;
use std::alloc::AllocError;

/// Goes on with the clauses of a call that was made just now: with rules, or with facts.
#[inline(always)]
pub fn try_clauses<S: StateStore>(
    code: &Code<'_>,
    run: &mut Run<S>,
    call: &Call,
    predicate: &Predicate,
) -> Result<(), AllocError>
    ensures { IfOk result (λ _. ChangesBy S.seen S.order code.now run.old run.new
        (λ made. slice_get code.now.predicates.items call.now.predicate ≡ Some predicate.now →
        TriesClauses call.now predicate.now.first made)) }
{
    if predicate.is_facts {
        call_facts(code, run, call, predicate)
    } else {
        try_rules(code, run, call, predicate, predicate.first, false)
    }
}

/// Goes on with the facts of a call that was made just now, where a mode list fits it.
#[inline(never)]
fn call_facts<S: StateStore>(
    code: &Code<'_>,
    run: &mut Run<S>,
    call: &Call,
    predicate: &Predicate,
) -> Result<(), AllocError>
    ensures { IfOk result (λ _. ChangesBy S.seen S.order code.now run.old run.new
        (λ made. slice_get code.now.predicates.items call.now.predicate ≡ Some predicate.now → predicate.now.is_facts ≡ true →
        TriesClauses call.now predicate.now.first made)) }
{
    if fits(code, run, call, predicate.arity)? {
        try_facts(code, run, call, predicate, predicate.first, false)
    } else {
        run.now = Now::Failing;
        Ok(())
    }
}

/// Whether a mode list of its predicate fits a call.
fn fits<S: StateStore>(
    code: &Code<'_>,
    run: &mut Run<S>,
    call: &Call,
    arity: u32,
) -> Result<bool, AllocError>
    ensures store { run.new.store ≡ run.old.store }
    ensures arenas { run.new.arenas ≡ run.old.arenas }
    ensures tells { IfOk result (λ one. (pred : PredTree) (lists : List (List Mode)) (ts : Trees) →
        slice_get (map pred_tree (preds_of code.now)) call.now.predicate ≡ Some pred → pred.index ≡ Some lists →
        IsAcyclic (bindings (state_in S.seen run.old)) →
        HoldsArgumentsIn S.seen run.old call.now.base arity ts →
        one ≡ list_any (λ modes. fits_modes (bindings (state_in S.seen run.old)) modes ts) lists) }
{
    let Some(source) = code.source(call.predicate) else {
        return Ok(false);
    };
    take_block(&run.arenas.blocks, call.base, arity, &mut run.terms)?;
    fits_call(run.alloc, &run.store, &source.decl, &run.terms)
}

/// Goes on with the first of a call's facts from `from` on that unifies with it. `is_again` says that the newest entry is this
/// call's; it stays only where a later fact unifies too.
pub fn try_facts<S: StateStore>(
    code: &Code<'_>,
    run: &mut Run<S>,
    call: &Call,
    predicate: &Predicate,
    from: u32,
    is_again: bool,
) -> Result<(), AllocError>
    ensures { IfOk result (λ _. ChangesBy S.seen S.order code.now run.old run.new
        (λ made. slice_get code.now.predicates.items call.now.predicate ≡ Some predicate.now →
        TriesFacts call.now from is_again made)) }
{
    let Some(source) = code.source(call.predicate) else {
        run.now = Now::Failing;
        return Ok(());
    };
    let asked = asked_of(run, call, predicate.arity)?;
    let clauses = source.clauses.as_slice();
    try_some(code, run, clauses, call, predicate, from, asked, is_again)
}

/// The arguments of a call, as those of a compound without a name.
fn asked_of<S: StateStore>(run: &mut Run<S>, call: &Call, arity: u32) -> Result<Ref, AllocError>
    ensures stays { Stays (S.seen run.old.store) (S.seen run.new.store) }
    ensures arenas { run.new.arenas ≡ run.old.arenas }
    ensures term { IfOk result (λ r. (ts : Trees) →
        HoldsArgumentsIn S.seen run.old call.now.base arity ts →
        IsTerm (S.seen run.new.store) r (comp [] ts)) }
{
    take_block(&run.arenas.blocks, call.base, arity, &mut run.terms)?;
    run.store.put_comp("", &run.terms)
}

/// Goes on with the first of these facts from `from` on that unifies with a call.
fn try_some<S: StateStore>(
    code: &Code<'_>,
    run: &mut Run<S>,
    clauses: &[CoreClause],
    call: &Call,
    predicate: &Predicate,
    from: u32,
    asked: Ref,
    is_again: bool,
) -> Result<(), AllocError>
    ensures { IfOk result (λ _. ChangesBy S.seen S.order code.now run.old run.new
        (TriesSome call.now from (asking predicate.now clauses.now asked) is_again)) }
{
    let end = predicate.end;
    let facts = pi_engine_facts::Facts {
        clauses,
        keys: &code.keys,
        predicate: call.predicate,
        first: predicate.first,
        end,
    };
    let found = next_unifying(run.alloc, &mut run.store, &facts, from, asked)?;
    let Some(number) = found else {
        end_facts(run, is_again);
        return Ok(());
    };
    let behind = following(number, end);
    let next = next_unifying(run.alloc, &mut run.store, &facts, behind, asked)?;
    leave_later(run, call, predicate.arity, next, is_again)?;
    take_fact(
        run,
        clauses,
        number.saturating_sub(facts.first),
        call,
        asked,
    )
}

/// The number behind one that is below another.
fn following(number: u32, end: u32) -> u32
    ensures { number < end → result ≡ number + 1 }
{
    if number < end { number + 1 } else { end }
}

/// No fact is left: the newest entry is gone where it is the call's.
fn end_facts<S: StateStore>(run: &mut Run<S>, is_again: bool)
    ensures store { run.new.store ≡ run.old.store }
    ensures drops { is_again ≡ true → DropsNewest (view_of run.old.arenas) (view_of run.new.arenas) }
    ensures stays { is_again ≡ false → run.new.arenas ≡ run.old.arenas }
    ensures now { run.new.now ≡ Failing }
{
    drop_own(run, is_again);
    run.now = Now::Failing;
}

/// Lets a call wait for its fact with a number; where there is none, its entry is gone.
fn leave_later<S: StateStore>(
    run: &mut Run<S>,
    call: &Call,
    arity: u32,
    next: Option<u32>,
    is_again: bool,
) -> Result<(), AllocError>
    ensures { IfOk result (λ _. call.now.base + arity ≤ length run.old.arenas.blocks.slots →
        LeavesLater S.order (across S.seen run.old run.new) call.now (call.now.base + arity) is_again next) }
{
    match next {
        Some(number) => {
            let kind = Kind::Facts(call.predicate, number);
            keep(run, call, arity, kind, is_again)
        }
        None => {
            drop_own(run, is_again);
            Ok(())
        }
    }
}

/// Drops the newest entry where it is the call's.
fn drop_own<S: StateStore>(run: &mut Run<S>, is_again: bool)
    ensures store { run.new.store ≡ run.old.store }
    ensures drops { is_again ≡ true → DropsNewest (view_of run.old.arenas) (view_of run.new.arenas) }
    ensures stays { is_again ≡ false → run.new.arenas ≡ run.old.arenas }
{
    if is_again {
        run.arenas.pop();
    }
}

/// Unifies the fact in a place with a call: what is behind the call goes on then.
fn take_fact<S: StateStore>(
    run: &mut Run<S>,
    facts: &[CoreClause],
    place: u32,
    call: &Call,
    asked: Ref,
) -> Result<(), AllocError>
    ensures arenas { run.new.arenas ≡ run.old.arenas }
    ensures takes { IfOk result (λ _. (d : Clause) (ts : Trees) → slice_get facts.now place ≡ Some d →
        Rests (state_in S.seen run.old) → IsTerm (S.seen run.old.store) asked (comp [] ts) →
        TakesFact (S.seen run.old.store) (S.seen run.new.store) ts (clause_tree d) call.now run.new.now) }
{
    let Some(fact) = facts.get(place as usize) else {
        run.now = Now::Failing;
        return Ok(());
    };
    make_fact(run, fact, call, asked)
}

/// Unifies a fact with a call.
fn make_fact<S: StateStore>(
    run: &mut Run<S>,
    fact: &CoreClause,
    call: &Call,
    asked: Ref,
) -> Result<(), AllocError>
    ensures arenas { run.new.arenas ≡ run.old.arenas }
    ensures takes { IfOk result (λ _. (ts : Trees) → Rests (state_in S.seen run.old) →
        IsTerm (S.seen run.old.store) asked (comp [] ts) →
        TakesFact (S.seen run.old.store) (S.seen run.new.store) ts (clause_tree fact.now) call.now run.new.now) }
{
    let head = fact.head.as_slice();
    // What a look says of all terms: they speak of variables that were made.
    let _root = run.store.look(asked);
    let since = begin(&mut run.store)?;
    let one = unify_fact(run.alloc, &mut run.store, head, fact.slots, asked)?;
    let next = next_after(run.alloc, &run.store, &since, one, point_behind(call))?;
    run.now = next;
    Ok(())
}

/// What is behind a call whose clause has no body: no goal of a block, and then the frame.
fn point_behind(call: &Call) -> Point
    ensures { result ≡ record { place = 0; count = 0; base = call.now.base; frame = call.now.frame } }
{
    Point {
        place: 0,
        count: 0,
        base: call.base,
        frame: call.frame,
    }
}

/// Goes on with a call's facts from one on, for which the newest entry was kept.
#[inline(never)]
pub fn retry_facts<S: StateStore>(
    code: &Code<'_>,
    run: &mut Run<S>,
    back: Back,
    predicate: u32,
    from: u32,
) -> Result<(), AllocError>
    ensures { IfOk result (λ _. ChangesBy S.seen S.order code.now run.old run.new (λ made. back.kind ≡ Facts predicate from →
        PassesOver back made)) }
{
    let Some(called) = code.predicate_there(predicate) else {
        run.now = Now::Failing;
        return Ok(());
    };
    let call = call_of(&back, predicate);
    try_facts(code, run, &call, called, from, true)
}
