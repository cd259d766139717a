//! The head of a fact as terms with new variables, and its unification with the arguments of a call.
ghost use Rattle.std.specs.Prelude.{◌≡◌, ℕ, true, List, [], Option, None, Some, option_and_then, replicate, slice_index_or, slice_set, IfOk};
ghost use Rattle.pi_terms.specs.Tree.{Trees, comp};
ghost use Rattle.pi_terms.specs.Places.{held};
ghost use Rattle.pi_constraints.specs.State.{IsState, next};
ghost use Rattle.pi_constraints.specs.Store.{IsTerm, Keeps};
ghost use Rattle.pi_constraints.specs.Evaluation.{Evaluated, slot_term};
ghost use Rattle.pi_core.specs.CoreTree.{pattern_tree, pattern_trees};
ghost use Rattle.pi_unify.specs.Answers.{Answers};
ghost use Rattle.pi_meaning.specs.CoreMeaning.Facts.{also_named, fact_term, fact_terms, unified_with};
ghost use Rattle.pi_engine_facts.specs.Heads.{AreMade, made_places, Puts, PutsHead, PutsHeads};

use pi_constraints::{Ref, StateStore};
use pi_core::Pattern;
use pi_unify::unify;
use std::alloc::{AllocError, Global};

/// The slots of a fact by their numbers: the number of the variable that each has, once it has one.
type FactSlots = Vec<Option<u64>>;

/// Makes the arguments of a call, which are those of a compound without a name, equal to those of a fact, each of whose slots
/// is a new variable at its first occurrence from the left; false exactly where they can't be. After false or a refusal some
/// of the bindings may stand.
pub fn unify_fact<S: StateStore>(
    alloc: Global,
    s: &mut S,
    head: &[Pattern],
    slots: u32,
    call: Ref,
) -> Result<bool, AllocError>
    ensures keeps { Keeps (S.seen s.old) (S.seen s.new) }
    ensures unifies { IfOk result (λ one. (ts : Trees) → IsState (S.seen s.old).now.state →
        IsTerm (S.seen s.old) call (comp [] ts) → Answers
        (option_and_then (unified_with ts) (fact_terms (pattern_trees head.now) (replicate slots None) (S.seen s.old).now.state))
        one (S.seen s.new).now.state) }
    ensures state { IfOk result (λ one. (ts : Trees) → IsState (S.seen s.old).now.state → IsTerm (S.seen s.old) call (comp [] ts) →
        one ≡ true → IsState (S.seen s.new).now.state) }
{
    let mut filled = empty_slots(alloc, slots)?;
    let Some(parts) = put_patterns(alloc, s, head, &mut filled)? else {
        return Ok(false);
    };
    let fact = s.put_comp("", &parts)?;
    // What a look says of all terms: they speak of variables that were made.
    let _root = s.look(fact);
    let one = unify(alloc, s, call, fact)?;
    Ok(one)
}

/// So many slots without a variable.
fn empty_slots(alloc: Global, count: u32) -> Result<FactSlots, AllocError>
    ensures { IfOk result (λ made. made.items ≡ replicate count None) }
{
    let mut slots = Vec::new(alloc);
    slots.resize(count as usize, None)?;
    Ok(slots)
}

/// The terms of patterns, from the left; None exactly where a named part of one can't be equal to its name.
#[cycle(heads)]
fn put_patterns<S: StateStore>(
    alloc: Global,
    s: &mut S,
    patterns: &[Pattern],
    slots: &mut FactSlots,
) -> Result<Option<Vec<Ref>>, AllocError>
    ensures keeps { Keeps (S.seen s.old) (S.seen s.new) }
    ensures puts { IfOk result (λ made. IsState (S.seen s.old).now.state →
        AreMade (next (S.seen s.old).now.state) slots.old.items →
        PutsHeads (S.seen s.new) (fact_terms (pattern_trees patterns.now) (made_places slots.old.items) (S.seen s.old).now.state)
        made slots.new.items) }
{
    let mut parts = Vec::new(alloc);
    for i in 0..patterns.len() {
        let Some(part) = put_pattern(alloc, s, &patterns[i], slots)? else {
            return Ok(None);
        };
        parts.push(part)?;
    }
    Ok(Some(parts))
}

/// The term of a pattern; None exactly where a named part of it can't be equal to its name.
#[cycle(heads)]
fn put_pattern<S: StateStore>(
    alloc: Global,
    s: &mut S,
    pattern: &Pattern,
    slots: &mut FactSlots,
) -> Result<Option<Ref>, AllocError>
    ensures keeps { Keeps (S.seen s.old) (S.seen s.new) }
    ensures puts { IfOk result (λ made. IsState (S.seen s.old).now.state →
        AreMade (next (S.seen s.old).now.state) slots.old.items →
        PutsHead (S.seen s.new) (fact_term (pattern_tree pattern.now) (made_places slots.old.items) (S.seen s.old).now.state) made
        slots.new.items) }
{
    match pattern {
        Pattern::Slot(k) => {
            let made = slot_of(s, slots, *k)?;
            Ok(Some(made))
        }
        Pattern::Int(n) => {
            let made = s.put_int(*n)?;
            Ok(Some(made))
        }
        Pattern::Atom(name) => {
            let made = s.put_atom(name.as_str())?;
            Ok(Some(made))
        }
        Pattern::Comp(name, patterns) => {
            let Some(parts) = put_patterns(alloc, s, patterns.as_slice(), slots)? else {
                return Ok(None);
            };
            let made = s.put_comp(name.as_str(), &parts)?;
            Ok(Some(made))
        }
        Pattern::Named(k, inner) => {
            let whole = slot_of(s, slots, *k)?;
            let Some(part) = put_pattern(alloc, s, inner, slots)? else {
                return Ok(None);
            };
            let made = make_named(alloc, s, whole, part)?;
            Ok(made)
        }
    }
}

/// Makes a part equal to its name; None exactly where it can't be.
fn make_named<S: StateStore>(
    alloc: Global,
    s: &mut S,
    whole: Ref,
    part: Ref,
) -> Result<Option<Ref>, AllocError>
    ensures keeps { Keeps (S.seen s.old) (S.seen s.new) }
    ensures puts { IfOk result (λ made. (x y : Evaluated) (slots : List (Option ℕ)) → IsState (S.seen s.old).now.state →
        Puts (S.seen s.old) y part slots → IsTerm (S.seen s.old) whole x.tree →
        PutsHead (S.seen s.new) (also_named x y) made slots) }
{
    // What a look says of all terms: they speak of variables that were made.
    let _root = s.look(part);
    let one = unify(alloc, s, whole, part)?;
    if one { Ok(Some(whole)) } else { Ok(None) }
}

/// The variable of a slot, which is new where the slot has none yet.
fn slot_of<S: StateStore>(s: &mut S, slots: &mut FactSlots, k: u32) -> Result<Ref, AllocError>
    ensures keeps { Keeps (S.seen s.old) (S.seen s.new) }
    ensures puts { IfOk result (λ made. IsState (S.seen s.old).now.state →
        AreMade (next (S.seen s.old).now.state) slots.old.items →
        Puts (S.seen s.new) (slot_term (held (made_places slots.old.items) k) k (made_places slots.old.items)
        (S.seen s.old).now.state) made slots.new.items) }
{
    let k = k as usize;
    if let Some(n) = variable_of(slots, k) {
        return Ok(s.var_ref(n));
    }
    let n = s.vars();
    let made = s.new_var()?;
    keep_variable(slots, k, n);
    Ok(made)
}

/// The variable that a slot has.
fn variable_of(slots: &FactSlots, k: usize) -> Option<u64>
    ensures { result ≡ slice_index_or slots.now.items k None }
{
    match slots.get(k).copied() {
        Some(found) => found,
        None => None,
    }
}

/// Gives a slot a variable, where there is such a slot.
fn keep_variable(slots: &mut FactSlots, k: usize, n: u64)
    ensures { slots.new.items ≡ slice_set slots.old.items k (Some n) }
{
    if k < slots.len() {
        slots[k] = Some(n);
    }
}
