//! Slots as terms and as patterns, and calls over them.
ghost use Rattle.std.specs.Prelude.{◌≡◌, ◌+◌, ◌++◌, ◌∷◌, [], codes, pos, IfOk};
ghost use Rattle.pi_core.specs.GoalTree.{GoalTree};
ghost use Rattle.pi_terms.specs.Tree.{Tree};
ghost use Rattle.pi_rewrite_spec.specs.Loops.{slots_from, slots_for_names};
ghost use Rattle.pi_rewrite_slots.specs.Indexed.{names_in};

use pi_core::CoreGoal;
use pi_rewrite_slots::Slots;
use pi_terms::Term;
use std::alloc::{AllocError, Global};

/// A number of slots, which has 32 bits: for more of them memory is wanted.
pub(crate) fn short(count: usize) -> Result<u32, AllocError>
    ensures { IfOk result (λ made. made ≡ count) }
{
    u32::try_from(count).map_err(|_| AllocError)
}

/// The slot that stands so many behind another one.
pub(crate) fn later(slot: u32, more: u32) -> Result<u32, AllocError>
    ensures { IfOk result (λ made. made ≡ slot + more) }
{
    slot.checked_add(more).ok_or(AllocError)
}

/// A slot as a term.
pub(crate) fn variable_of(alloc: Global, slot: u32) -> Result<Term, AllocError>
    ensures { IfOk result (λ made. made ≡ Tree.var slot) }
{
    Term::var(alloc, u64::from(slot))
}

/// Puts a slot behind the terms.
pub(crate) fn push_slot(alloc: Global, terms: &mut Vec<Term>, slot: u32) -> Result<(), AllocError>
    ensures { IfOk result (λ _. terms.new.items ≡ terms.old.items ++ Tree.var slot ∷ []) }
{
    let term = variable_of(alloc, slot)?;
    terms.push(term)?;
    Ok(())
}

/// Puts so many slots from one on behind the terms.
pub(crate) fn push_slots(
    alloc: Global,
    terms: &mut Vec<Term>,
    first: u32,
    count: u32,
) -> Result<(), AllocError>
    ensures { IfOk result (λ _. terms.new.items ≡ terms.old.items ++ slots_from first count) }
{
    let mut slot = first;
    for _ in 0..count {
        push_slot(alloc, terms, slot)?;
        slot = later(slot, 1)?;
    }
    Ok(())
}

/// Puts the slots of names behind the terms.
pub(crate) fn push_named<'a>(
    alloc: Global,
    terms: &mut Vec<Term>,
    names: &[&str],
    slots: &Slots<'a>,
) -> Result<(), AllocError>
    ensures { IfOk result (λ _. terms.new.items ≡ terms.old.items ++ slots_for_names (names_in names.now) slots.now) }
{
    for name in names {
        let slot = slots.slot_of(*name)?;
        push_slot(alloc, terms, slot)?;
    }
    Ok(())
}

/// Puts the call of a function, whose value goes into a slot, behind the goals.
pub(crate) fn push_apply(
    alloc: Global,
    name: &str,
    args: &[Term],
    into: u32,
    goals: &mut Vec<CoreGoal>,
) -> Result<(), AllocError>
    ensures { IfOk result (λ _. goals.new.items ≡ goals.old.items ++ GoalTree.apply name.now args.now into ∷ []) }
{
    let goal = CoreGoal::apply(alloc, name, args, into)?;
    goals.push(goal)?;
    Ok(())
}

/// Puts the call of a function of one slot behind the goals.
pub(crate) fn push_of_slot(
    alloc: Global,
    name: &str,
    slot: u32,
    into: u32,
    goals: &mut Vec<CoreGoal>,
) -> Result<(), AllocError>
    ensures { IfOk result (λ _. goals.new.items ≡ goals.old.items ++ GoalTree.apply name.now (Tree.var slot ∷ []) into ∷ []) }
{
    let value = variable_of(alloc, slot)?;
    push_apply(alloc, name, &[value], into, goals)
}

/// Puts the call of a function of two slots behind the goals.
pub(crate) fn push_of_slots(
    alloc: Global,
    name: &str,
    one: u32,
    other: u32,
    into: u32,
    goals: &mut Vec<CoreGoal>,
) -> Result<(), AllocError>
    ensures { IfOk result (λ _. goals.new.items ≡
        goals.old.items ++ GoalTree.apply name.now (Tree.var one ∷ Tree.var other ∷ []) into ∷ []) }
{
    let one = variable_of(alloc, one)?;
    let other = variable_of(alloc, other)?;
    push_apply(alloc, name, &[one, other], into, goals)
}

/// Puts the call of a function of a slot and of 1 behind the goals.
pub(crate) fn push_with_one(
    alloc: Global,
    name: &str,
    slot: u32,
    into: u32,
    goals: &mut Vec<CoreGoal>,
) -> Result<(), AllocError>
    ensures { IfOk result (λ _. goals.new.items ≡
        goals.old.items ++ GoalTree.apply name.now (Tree.var slot ∷ Tree.int (pos 1) ∷ []) into ∷ []) }
{
    let value = variable_of(alloc, slot)?;
    let one = Term::int(alloc, 1)?;
    push_apply(alloc, name, &[value, one], into, goals)
}

/// Puts a Tick behind the goals.
pub(crate) fn push_tick(alloc: Global, goals: &mut Vec<CoreGoal>) -> Result<(), AllocError>
    ensures { IfOk result (λ _. goals.new.items ≡ goals.old.items ++ GoalTree.tick ∷ []) }
{
    let tick = CoreGoal::tick(alloc)?;
    goals.push(tick)?;
    Ok(())
}

/// Whether a number is below that in a slot, as a goal.
pub(crate) fn less(alloc: Global, one: Term, slot: u32) -> Result<CoreGoal, AllocError>
    ensures { IfOk result (λ made. made ≡ GoalTree.call (codes "<") (one ∷ Tree.var slot ∷ [])) }
{
    let other = variable_of(alloc, slot)?;
    CoreGoal::call(alloc, "<", &[one, other])
}
