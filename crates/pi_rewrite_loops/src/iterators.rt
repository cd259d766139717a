//! Iterators over ranges or over what is walked: both helpers of one.
ghost use Rattle.std.specs.Prelude.{◌≡◌, ◌++◌, true, false, map, IfOk};
ghost use Rattle.pi_core.specs.CoreTree.{pred_tree};
ghost use Rattle.pi_rewrite_spec.specs.Values.{SlotPattern};
ghost use Rattle.pi_rewrite_loops.specs.Helpers.{loop_of, lowered, IsElement, own_by};

use crate::elements::{Element, turn_helper};
use crate::loops::Loop;
use crate::ranges::{range_helper, step_helper};
use crate::walks::element_helper;
use pi_core::{CoreGoal, CorePred};
use pi_rewrite_slots::Slots;
use std::alloc::{AllocError, Global};

/// Puts the two helpers of an iterator behind the others: that of the loop's name, and that of this name, which matches an
/// element. The slots are those behind the turn. Errors: no memory.
pub fn push_own<'a>(
    alloc: Global,
    is_range: bool,
    name: &str,
    l: &Loop<'a>,
    element: Element,
    turn: Vec<CoreGoal>,
    slots: &Slots<'a>,
    helpers: &mut Vec<CorePred>,
) -> Result<(), AllocError>
    ensures { IfOk result (λ _. (p : SlotPattern) → IsElement p element →
        map pred_tree helpers.new.items ≡ map pred_tree helpers.old.items
        ++ own_by is_range name.now (loop_of l.now) p (lowered turn.items slots.now)) }
{
    if is_range {
        push_steps(alloc, name, l, element, turn, slots, helpers)?;
        return Ok(());
    }
    push_turns(alloc, name, l, element, turn, slots, helpers)
}

/// Puts the two helpers of an iterator over a range behind the others.
fn push_steps<'a>(
    alloc: Global,
    name: &str,
    l: &Loop<'a>,
    element: Element,
    turn: Vec<CoreGoal>,
    slots: &Slots<'a>,
    helpers: &mut Vec<CorePred>,
) -> Result<(), AllocError>
    ensures { IfOk result (λ _. (p : SlotPattern) → IsElement p element →
        map pred_tree helpers.new.items ≡ map pred_tree helpers.old.items
        ++ own_by true name.now (loop_of l.now) p (lowered turn.items slots.now)) }
{
    let second = step_helper(alloc, name, l, element, turn, slots)?;
    let first = range_helper(alloc, name, l)?;
    helpers.push(first)?;
    helpers.push(second)?;
    Ok(())
}

/// Puts the two helpers of an iterator over a list or an array behind the others.
fn push_turns<'a>(
    alloc: Global,
    name: &str,
    l: &Loop<'a>,
    element: Element,
    turn: Vec<CoreGoal>,
    slots: &Slots<'a>,
    helpers: &mut Vec<CorePred>,
) -> Result<(), AllocError>
    ensures { IfOk result (λ _. (p : SlotPattern) → IsElement p element →
        map pred_tree helpers.new.items ≡ map pred_tree helpers.old.items
        ++ own_by false name.now (loop_of l.now) p (lowered turn.items slots.now)) }
{
    let second = turn_helper(alloc, name, l, element, turn, slots)?;
    let first = element_helper(alloc, name, l)?;
    helpers.push(first)?;
    helpers.push(second)?;
    Ok(())
}
