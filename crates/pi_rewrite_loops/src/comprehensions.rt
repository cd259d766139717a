//! Comprehensions: a slot that no text names has the items so far.
ghost use Rattle.std.specs.Prelude.{◌≡◌, length, [], IfOk};
ghost use Rattle.pi_terms.specs.Tree.{Tree};
ghost use Rattle.pi_rewrite_spec.specs.Iterators.{behind_collection};
ghost use Rattle.pi_rewrite_spec.specs.Comprehensions.{begun as begun_of, adding};
ghost use Rattle.pi_rewrite_loops.specs.Parts.{AreGoals};

use crate::terms::{push_apply, variable_of};
use pi_core::CoreGoal;
use pi_rewrite_slots::Slots;
use pi_terms::Term;
use std::alloc::{AllocError, Global};

/// What a text's names can't be.
const HIDDEN: &str = "";

/// Puts the start of a comprehension behind the goals, which stand behind those that make the names before it. Its loop has
/// the slots that are given back. Errors: no memory.
pub fn begun<'a>(
    alloc: Global,
    slots: &Slots<'a>,
    goals: &mut Vec<CoreGoal>,
) -> Result<Slots<'a>, AllocError>
    ensures { IfOk result (λ made. AreGoals (begun_of slots.now) goals.old.items goals.new.items made) }
{
    let items = slots.count()?;
    let empty = Term::atom(alloc, "[]")?;
    push_apply(alloc, "once", &[empty], items, goals)?;
    let mut inside = slots.but(alloc, HIDDEN)?;
    inside.new_slot(HIDDEN)?;
    Ok(inside)
}

/// Puts one item more into the slot, as a goal behind those that evaluate it. Errors: no memory.
pub fn push_adding<'a>(
    alloc: Global,
    item: Term,
    slots: &mut Slots<'a>,
    goals: &mut Vec<CoreGoal>,
) -> Result<(), AllocError>
    ensures { IfOk result (λ _. AreGoals (adding (record { goals = []; tree = item; names = slots.old })) goals.old.items
        goals.new.items slots.new) }
{
    let from = slots.slot_for(HIDDEN)?;
    let into = slots.slot_for(HIDDEN)?;
    let rest = variable_of(alloc, from)?;
    let cell = Term::comp(alloc, "[|]", &[item, rest])?;
    push_apply(alloc, "once", &[cell], into, goals)?;
    Ok(())
}

/// The value of a comprehension, behind its loop with the slots `inside`: the slot in which it stands. No name finds what the
/// loop took. Errors: no memory.
pub fn gathered<'a>(
    alloc: Global,
    inside: &Slots<'a>,
    slots: &mut Slots<'a>,
) -> Result<Term, AllocError>
    ensures is { IfOk result (λ term. term ≡ Tree.var (length slots.old)) }
    ensures slots { IfOk result (λ _. slots.new ≡ behind_collection slots.old inside.now) }
{
    let items = slots.count()?;
    slots.behind(inside)?;
    variable_of(alloc, items)
}
