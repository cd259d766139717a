//! Iterators and tests of a loop: opened from the left, and closed from the last one on.
ghost use Rattle.std.specs.Prelude.{◌≡◌, ◌++◌, map, IfOk};
ghost use Rattle.pi_core.specs.CoreTree.{pred_tree};
ghost use Rattle.pi_rewrite_loops.specs.Helpers.{lowered};
ghost use Rattle.pi_rewrite_goals.specs.Opened.{around, own_of, all_around, all_own};

use pi_core::{CoreGoal, CorePred};
use pi_rewrite_loops::{Element, Loop, in_turn, push_own};
use pi_rewrite_sites::Site;
use pi_rewrite_slots::Slots;
use pi_terms::Text;
use std::alloc::{AllocError, Global};
use std::mem;

/// A test or an iterator that is open.
#[derive(Drop)]
pub enum Open<'a> {
    /// A test as one goal, and the goals before it in its clause.
    Test(CoreGoal, Vec<CoreGoal>),
    Iterator(Iterated<'a>),
}

/// An iterator that is open: its loop, what its second helper is called, the pattern of its elements, whether it goes over
/// a range, and the clause in which it stands: the goals there, and the slots behind them.
#[derive(Drop)]
pub struct Iterated<'a> {
    pub whole: Loop<'a>,
    pub turn: Text,
    pub element: Element,
    pub is_range: bool,
    pub goals: Vec<CoreGoal>,
    pub slots: Slots<'a>,
}

/// The last clause that is open: where what stands behind in the loop is lowered.
#[derive(Drop)]
pub struct Inside<'a> {
    pub site: Site<'a>,
    pub goals: Vec<CoreGoal>,
    pub slots: Slots<'a>,
}

/// Closes what is open, from the last one on, around what stands in the loop.
pub fn close<'a>(
    alloc: Global,
    opened: &mut Vec<Open<'a>>,
    slots: &mut Slots<'a>,
    goals: &mut Vec<CoreGoal>,
    helpers: &mut Vec<CorePred>,
) -> Result<(), AllocError>
    ensures goals { IfOk result (λ _. lowered goals.new.items slots.new ≡ all_around opened.old.items (lowered goals.old.items slots.old)) }
    ensures helpers { IfOk result (λ _. map pred_tree helpers.new.items ≡
        map pred_tree helpers.old.items ++ all_own opened.old.items (lowered goals.old.items slots.old)) }
{
    while let Some(last) = opened.pop() {
        close_one(alloc, last, slots, goals, helpers)?;
    }
    Ok(())
}

/// Closes a test or an iterator.
fn close_one<'a>(
    alloc: Global,
    last: Open<'a>,
    slots: &mut Slots<'a>,
    goals: &mut Vec<CoreGoal>,
    helpers: &mut Vec<CorePred>,
) -> Result<(), AllocError>
    ensures goals { IfOk result (λ _. lowered goals.new.items slots.new ≡ around last.entry (lowered goals.old.items slots.old)) }
    ensures helpers { IfOk result (λ _. map pred_tree helpers.new.items ≡
        map pred_tree helpers.old.items ++ own_of last.entry (lowered goals.old.items slots.old)) }
{
    match last {
        Open::Test(test, before) => {
            let behind = mem::replace(goals, before);
            let then = in_turn(alloc, behind)?;
            let other = CoreGoal::truth(alloc)?;
            let choice = CoreGoal::if_else(alloc, test, then, other)?;
            goals.push(choice)?;
            Ok(())
        }
        Open::Iterator(over) => {
            let Iterated {
                whole,
                turn: name,
                element,
                is_range,
                goals: before,
                slots: outer,
            } = over;
            let turn = mem::replace(goals, before);
            let behind = mem::replace(slots, outer);
            push_own(
                alloc,
                is_range,
                name.as_str(),
                &whole,
                element,
                turn,
                &behind,
                helpers,
            )?;
            Ok(())
        }
    }
}
