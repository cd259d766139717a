//! Where a loop stands: names that are there when it starts, the call of its helper, and what names stand for behind it.
ghost use Rattle.std.specs.Prelude.{◌≡◌, ◌++◌, [], IfOk};
ghost use Rattle.pi_terms.specs.Tree.{comp, trees_of};
ghost use Rattle.pi_syntax.specs.PrintTerm.{array_name};
ghost use Rattle.pi_rewrite_slots.specs.Indexed.{names_in};
ghost use Rattle.pi_rewrite_spec.specs.Values.{slot_terms};
ghost use Rattle.pi_rewrite_spec.specs.Loops.{started, as_written, kept_goals, entered, loop_goals};
ghost use Rattle.pi_rewrite_loops.specs.Helpers.{loop_of};
ghost use Rattle.pi_rewrite_loops.specs.Parts.{AreGoals, goals_before};
ghost use Rattle.pi_rewrite_loops.specs.Turns.{entry_call};

use crate::joined::push_filling;
use crate::loops::{Loop, kept_count};
use crate::terms::{later, push_named, push_of_slot, push_slot, push_slots};
use pi_core::CoreGoal;
use pi_rewrite_slots::Slots;
use pi_terms::Term;
use std::alloc::{AllocError, Global};

/// Puts a `while`, a `do`, or a loop that begins with a test behind the goals: a call of its helper. `filled` is how many
/// slots the head of the clause fills, and `before` are the names that stand before the loop. Errors: no memory.
pub fn push_loop<'a>(
    alloc: Global,
    filled: u32,
    before: &[&'a str],
    l: &Loop<'a>,
    slots: &mut Slots<'a>,
    goals: &mut Vec<CoreGoal>,
) -> Result<(), AllocError>
    ensures { IfOk result (λ _. AreGoals (loop_goals filled (names_in before.now) (loop_of l.now) slots.old) goals.old.items
        goals.new.items slots.new) }
{
    push_started(alloc, filled, before, slots, goals)?;
    push_entered(alloc, l, Vec::new(alloc), slots, goals)?;
    Ok(())
}

/// Puts what makes that these names are there behind the goals, unless a head fills their slots. Errors: no memory.
pub fn push_started<'a>(
    alloc: Global,
    filled: u32,
    before: &[&'a str],
    slots: &mut Slots<'a>,
    goals: &mut Vec<CoreGoal>,
) -> Result<(), AllocError>
    ensures { IfOk result (λ _. AreGoals (goals_before (started filled (names_in before.now) slots.old)) goals.old.items
        goals.new.items slots.new) }
{
    let count = slots.count()?;
    let all = all_written(alloc, before, slots)?;
    push_filling(alloc, filled, count, &all, goals)
}

/// An array of names as they are written.
fn all_written<'a>(
    alloc: Global,
    names: &[&'a str],
    slots: &mut Slots<'a>,
) -> Result<Term, AllocError>
    ensures is { IfOk result (λ made. made ≡ comp array_name (trees_of (slot_terms (as_written (names_in names.now)) slots.old).trees)) }
    ensures slots { IfOk result (λ _. slots.new ≡ (slot_terms (as_written (names_in names.now)) slots.old).names) }
{
    let terms = written(alloc, names, slots)?;
    Term::comp(alloc, "{}", &terms)
}

/// Names as they are written, as terms.
fn written<'a>(
    alloc: Global,
    names: &[&'a str],
    slots: &mut Slots<'a>,
) -> Result<Vec<Term>, AllocError>
    ensures are { IfOk result (λ made. made.items ≡ (slot_terms (as_written (names_in names.now)) slots.old).trees) }
    ensures slots { IfOk result (λ _. slots.new ≡ (slot_terms (as_written (names_in names.now)) slots.old).names) }
{
    let mut terms = Vec::new(alloc);
    for name in names {
        let slot = slots.slot_for(*name)?;
        push_slot(alloc, &mut terms, slot)?;
    }
    Ok(terms)
}

/// Puts the call of a loop's helper behind the goals, with these terms in front of what is handed on, and then what makes
/// the names that the loop keeps stand for their variables. Errors: no memory.
pub fn push_entered<'a>(
    alloc: Global,
    l: &Loop<'a>,
    first: Vec<Term>,
    slots: &mut Slots<'a>,
    goals: &mut Vec<CoreGoal>,
) -> Result<(), AllocError>
    ensures { IfOk result (λ _. AreGoals (entered (loop_of l.now) [] first.items slots.old) goals.old.items goals.new.items slots.new) }
{
    let variable = slots.count()?;
    let goal = entering(alloc, l, first, variable, slots)?;
    goals.push(goal)?;
    push_kept(alloc, &l.kept, variable, slots, goals)?;
    slots.value_slots(&l.kept)?;
    Ok(())
}

/// The call of a loop's helper, with these terms in front of what is handed on. Its variables stand in slots from one on.
fn entering<'a>(
    alloc: Global,
    l: &Loop<'a>,
    first: Vec<Term>,
    variable: u32,
    slots: &Slots<'a>,
) -> Result<CoreGoal, AllocError>
    ensures { IfOk result (λ made. made ≡ entry_call (loop_of l.now) first.items variable slots.now) }
{
    let mut args = first;
    push_named(alloc, &mut args, &l.shared, slots)?;
    push_slots(alloc, &mut args, variable, kept_count(l)?)?;
    CoreGoal::call(alloc, l.name.as_str(), &args)
}

/// Puts what makes these names stand for variables, which are in slots from one on, behind the goals.
fn push_kept<'a>(
    alloc: Global,
    names: &[&str],
    variable: u32,
    slots: &Slots<'a>,
    goals: &mut Vec<CoreGoal>,
) -> Result<(), AllocError>
    ensures { IfOk result (λ _. goals.new.items ≡ goals.old.items ++ kept_goals (names_in names.now) variable slots.now) }
{
    let mut from = variable;
    for name in names {
        let into = slots.slot_of(*name)?;
        push_of_slot(alloc, "once", from, into, goals)?;
        from = later(from, 1)?;
    }
    Ok(())
}
