//! The values that are collected.
ghost use Rattle.std.specs.Prelude.{◌≡◌, ℕ, ◌≤◌, Some, None, length, slice_get, IfOk, IfSome, IfNone};
ghost use Rattle.pi_engine_arenas.specs.Arenas.{view_of, IsLevel};
ghost use Rattle.pi_engine_stands.specs.Stands.{values_between};
ghost use Rattle.pi_engine_stands.specs.Lists.{PlacesValues, list_of};
ghost use Rattle.pi_engine_stands.specs.Fails.{EndsLevel};
ghost use Rattle.pi_engine_stands.specs.Makes.{AnswersLevel, collect_at, IsRead};
ghost use Rattle.pi_terms.specs.Tree.{Tree, Trees};
ghost use Rattle.pi_constraints.specs.Value.{IsAcyclic, value as value_of};
ghost use Rattle.pi_constraints.specs.State.{bindings};
ghost use Rattle.pi_constraints.specs.Store.{IsTerm, AreTerms, Stays};
ghost use Rattle.pi_engine_stands.specs.Changes.{ChangesBy};
ghost use Rattle.pi_engine_arenas.specs.Runs.{state_in};

use crate::raises::too_large;
use crate::values::{slot_at, slot_value};
use pi_constraints::{ReadStop, Ref, StateStore};
use pi_engine_arenas::{Back, Now, Point, Run, behind_level};
use pi_engine_code::{Code, Node};
use pi_terms::Term;
use pi_unify::place as place_term;
use std::alloc::{AllocError, Global};

/// How many values are collected.
pub fn count_collected<S: StateStore>(run: &Run<S>) -> usize
    ensures { result ≡ length run.exit.now.arenas.collected.items }
{
    run.arenas.collected.len()
}

/// Adds a copy of what the slot holds that is collected, and looks for the next answer.
pub fn add_value<S: StateStore>(
    code: &Code<'_>,
    run: &mut Run<S>,
    back: Back,
    place: u32,
) -> Result<(), AllocError>
    ensures { IfOk result (λ _. ChangesBy S.seen S.order code.now run.old run.new (λ made. (first : ℕ) →
        IsLevel (view_of run.old.arenas) run.old.arenas.level back → back.kind ≡ collect_at place first → AnswersLevel made)) }
{
    let step = code.step(place);
    let Node::Collect(value, _) = step.node else {
        run.now = Now::Failing;
        return Ok(());
    };
    let slot = slot_at(behind_level(back).first_slot(step), value);
    let term = slot_value(run, slot)?;
    let Some(copy) = read_value(run, term)? else {
        let ball = too_large(run)?;
        run.now = Now::Raising(ball);
        return Ok(());
    };
    run.arenas.collected.push(copy)?;
    run.now = Now::Failing;
    Ok(())
}

/// A term as it is written down, with bindings replaced throughout; None where it is too large.
pub fn read_value<S: StateStore>(run: &Run<S>, term: Ref) -> Result<Option<Term>, AllocError>
    ensures { IfOk result (λ read. (t : Tree) → IsTerm (S.seen run.exit.now.store) term t →
        IsAcyclic (bindings (state_in S.seen run.exit.now)) →
        IsRead (value_of (bindings (state_in S.seen run.exit.now)) t) read) }
{
    match run.store.read_term(run.alloc, term) {
        Ok(read) => Ok(Some(read)),
        Err(ReadStop::TooLarge) => Ok(None),
        Err(ReadStop::Memory) => Err(AllocError),
    }
}

/// The list of the values that were collected, from the one with this number on, goes into the slot for it.
pub fn give_list<S: StateStore>(
    code: &Code<'_>,
    run: &mut Run<S>,
    back: Back,
    place: u32,
    first: usize,
) -> Result<(), AllocError>
    ensures { IfOk result (λ _. ChangesBy S.seen S.order code.now run.old run.new (λ made. back.kind ≡ collect_at place first →
        EndsLevel back made)) }
{
    let step = code.step(place);
    let Node::Collect(_, into) = step.node else {
        return Ok(());
    };
    run.arenas.pop();
    place_values(
        run.alloc,
        &mut run.store,
        &run.arenas.collected,
        first,
        &mut run.terms,
    )?;
    run.arenas.collected.truncate(first);
    let list = list_of_terms(&mut run.store, &run.terms)?;
    let next = behind_level(back);
    let slot = slot_at(next.first_slot(step), into);
    run.arenas.blocks.set(slot, list)?;
    run.now = Now::Going(next);
    Ok(())
}

/// Makes terms of the values from one on, with new variables, from the first.
fn place_values<S: StateStore>(
    alloc: Global,
    store: &mut S,
    values: &[Term],
    first: usize,
    terms: &mut Vec<Ref>,
) -> Result<(), AllocError>
    ensures { IfOk result (λ _. first ≤ length values.now →
        PlacesValues (S.seen store.old) (S.seen store.new) (values_between values.now first (length values.now)) terms.new.items) }
{
    terms.clear();
    for i in first..values.len() {
        if let Some(value) = value_at(values, i) {
            let term = place_term(alloc, store, value)?;
            terms.push(term)?;
        }
    }
    Ok(())
}

/// The list of terms. A User's Guide to Picat, 'Lists'; the name of a cell is own.
fn list_of_terms<S: StateStore>(store: &mut S, terms: &[Ref]) -> Result<Ref, AllocError>
    ensures { IfOk result (λ list. (ts : Trees) → AreTerms (S.seen store.old) terms.now ts →
        Stays (S.seen store.old) (S.seen store.new) × IsTerm (S.seen store.new) list (list_of ts)) }
{
    let mut list = store.put_atom("[]")?;
    for i in (0..terms.len()).rev() {
        if let Some(term) = term_at(terms, i) {
            list = store.put_comp("[|]", &[term, list])?;
        }
    }
    Ok(list)
}

fn value_at(values: &[Term], i: usize) -> Option<&Term>
    ensures some { IfSome result (λ value. slice_get values.now i ≡ Some value.now) }
    ensures none { IfNone result (slice_get values.now i ≡ None) }
{
    values.get(i)
}

fn term_at(terms: &[Ref], i: usize) -> Option<Ref>
    ensures { result ≡ slice_get terms.now i }
{
    terms.get(i).copied()
}
