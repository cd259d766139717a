//! Where a loop ends: the variables of the names that it keeps are unified with what these have.
ghost use Rattle.std.specs.Prelude.{◌≡◌, ◌++◌, ◌∷◌, [], suc, codes, IfOk};
ghost use Rattle.pi_core.specs.GoalTree.{GoalTree};
ghost use Rattle.pi_terms.specs.Tree.{Tree};
ghost use Rattle.pi_rewrite_slots.specs.Indexed.{names_in};
ghost use Rattle.pi_rewrite_spec.specs.Loops.{ended, closing, closing_slots as free_slots};
ghost use Rattle.pi_rewrite_spec.specs.Goals.{in_turn as turn_of};
ghost use Rattle.pi_rewrite_loops.specs.Helpers.{ending_of, loop_of};

use crate::joined::in_turn;
use crate::loops::{Ending, Loop};
use crate::terms::{later, push_of_slot, short, variable_of};
use pi_core::CoreGoal;
use pi_rewrite_slots::Slots;
use std::alloc::{AllocError, Global};

/// The end of a loop, as one goal. Its variables stand in slots from `variable` on, and from `free` on slots are free.
pub(crate) fn end<'a>(
    alloc: Global,
    l: &Loop<'a>,
    variable: u32,
    free: u32,
    slots: &Slots<'a>,
) -> Result<CoreGoal, AllocError>
    ensures { IfOk result (λ made. made ≡ turn_of (closing (loop_of l.now).ending (loop_of l.now).kept variable free slots.now)) }
{
    let mut goals = Vec::new(alloc);
    push_closing(alloc, l, variable, free, slots, &mut goals)?;
    in_turn(alloc, goals)
}

/// Puts the goals of a loop's end behind the others.
pub(crate) fn push_closing<'a>(
    alloc: Global,
    l: &Loop<'a>,
    variable: u32,
    free: u32,
    slots: &Slots<'a>,
    goals: &mut Vec<CoreGoal>,
) -> Result<(), AllocError>
    ensures { IfOk result (λ _. goals.new.items ≡
        goals.old.items ++ closing (loop_of l.now).ending (loop_of l.now).kept variable free slots.now) }
{
    push_ends(alloc, l.ending, &l.kept, variable, free, slots, goals)?;
    Ok(())
}

/// Puts the goals of the end of a loop that keeps these names behind the others.
fn push_ends<'a>(
    alloc: Global,
    ending: Ending,
    names: &[&str],
    variable: u32,
    free: u32,
    slots: &Slots<'a>,
    goals: &mut Vec<CoreGoal>,
) -> Result<(), AllocError>
    ensures { IfOk result (λ _. goals.new.items ≡
        goals.old.items ++ closing (ending_of ending) (names_in names.now) variable free slots.now) }
{
    let mut at = variable;
    let mut next = free;
    for name in names {
        let slot = slots.slot_of(*name)?;
        push_ended(alloc, ending, at, slot, next, goals)?;
        at = later(at, 1)?;
        next = later(next, 2)?;
    }
    Ok(())
}

/// How many slots a clause has with a loop's end in it, where so many are there before.
pub(crate) fn closing_slots(l: &Loop<'_>, free: u32) -> Result<u32, AllocError>
    ensures { IfOk result (λ made. made ≡ free_slots (loop_of l.now).kept free) }
{
    let count = short(l.kept.len())?;
    let both = later(count, count)?;
    later(free, both)
}

/// Puts the goals behind the others that unify a variable in one slot with the value in another.
fn push_ended(
    alloc: Global,
    ending: Ending,
    variable: u32,
    value: u32,
    free: u32,
    goals: &mut Vec<CoreGoal>,
) -> Result<(), AllocError>
    ensures { IfOk result (λ _. goals.new.items ≡ goals.old.items ++ ended (ending_of ending) variable value free) }
{
    match ending {
        Ending::AsItIs => push_equation(alloc, variable, value, goals),
        Ending::InOrder(is_array) => {
            push_of_slot(alloc, "not", value, free, goals)?;
            if is_array {
                return push_array(alloc, variable, free, goals);
            }
            push_equation(alloc, variable, free, goals)
        }
    }
}

/// Puts the goals behind the others that unify a variable with the array of a list, which stands in the first free slot.
fn push_array(
    alloc: Global,
    variable: u32,
    list: u32,
    goals: &mut Vec<CoreGoal>,
) -> Result<(), AllocError>
    ensures { IfOk result (λ _. goals.new.items ≡
        goals.old.items ++ GoalTree.apply (codes "to_array") (Tree.var list ∷ []) (suc list)
        ∷ GoalTree.call (codes "=") (Tree.var variable ∷ Tree.var (suc list) ∷ []) ∷ []) }
{
    let array = later(list, 1)?;
    push_of_slot(alloc, "to_array", list, array, goals)?;
    push_equation(alloc, variable, array, goals)
}

/// Puts the equation of two slots behind the others.
fn push_equation(
    alloc: Global,
    one: u32,
    other: u32,
    goals: &mut Vec<CoreGoal>,
) -> Result<(), AllocError>
    ensures { IfOk result (λ _. goals.new.items ≡ goals.old.items ++ GoalTree.call (codes "=") (Tree.var one ∷ Tree.var other ∷ []) ∷ []) }
{
    let one = variable_of(alloc, one)?;
    let other = variable_of(alloc, other)?;
    let goal = CoreGoal::call(alloc, "=", &[one, other])?;
    goals.push(goal)?;
    Ok(())
}
