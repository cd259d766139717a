//! Loops: what is handed from turn to turn.
ghost use Rattle.std.specs.Prelude.{◌≡◌, ◌+◌, suc, length, IfOk};
ghost use Rattle.pi_rewrite_spec.specs.Loops.{loop_slots as slots_of};
ghost use Rattle.pi_rewrite_spec.specs.Iterators.{handed as handed_of};
ghost use Rattle.pi_rewrite_loops.specs.Helpers.{loop_of};

use crate::terms::{later, short};
use pi_rewrite_slots::Slots;
use pi_terms::Text;
use std::alloc::{AllocError, Global};

/// The value that stands behind a loop for a name that it keeps.
#[derive(Clone, Copy)]
pub enum Ending {
    /// As the name has it.
    AsItIs,
    /// The items of a list in order, the last one first so far: as an array, where this is `true`, or as a list.
    InOrder(bool),
}

/// A loop: its helper's name, the names that are handed on from turn to turn, those that it keeps, and how it ends.
pub struct Loop<'a> {
    pub name: Text,
    pub shared: Vec<&'a str>,
    pub kept: Vec<&'a str>,
    pub ending: Ending,
}

// By hand, so that letting one go is a call and not its parts at each way out.
impl<'a> Drop for Loop<'a> {
    fn drop(self) {
        let Loop {
            name: _,
            shared: _,
            kept: _,
            ending: _,
        } = self;
    }
}

/// The slots of a helper's head: what is handed on, and the variables of the names that the loop keeps. Errors: no memory.
pub fn loop_slots<'a>(alloc: Global, l: &Loop<'a>) -> Result<Slots<'a>, AllocError>
    ensures { IfOk result (λ made. made ≡ slots_of (loop_of l.now)) }
{
    let mut slots = Slots::new(alloc);
    slots.new_slots(&l.shared)?;
    slots.value_slots(&l.kept)?;
    Ok(slots)
}

/// How many slots stand in front of the variables of the names that the loop keeps, where so many stand in front of what
/// is handed on.
pub(crate) fn shared_from(l: &Loop<'_>, first: u32) -> Result<u32, AllocError>
    ensures { IfOk result (λ count. count ≡ first + length (loop_of l.now).shared) }
{
    later(first, short(l.shared.len())?)
}

/// How many names a loop keeps.
pub(crate) fn kept_count(l: &Loop<'_>) -> Result<u32, AllocError>
    ensures { IfOk result (λ count. count ≡ length (loop_of l.now).kept) }
{
    short(l.kept.len())
}

/// How many slots there are where so many stand in front of what is handed on.
pub(crate) fn slots_behind(l: &Loop<'_>, first: u32) -> Result<u32, AllocError>
    ensures { IfOk result (λ count. count ≡ first + length (loop_of l.now).shared + length (loop_of l.now).kept) }
{
    later(shared_from(l, first)?, kept_count(l)?)
}

/// How many terms a helper of an iterator is handed.
pub(crate) fn handed(l: &Loop<'_>) -> Result<u32, AllocError>
    ensures { IfOk result (λ count. count ≡ handed_of (loop_of l.now)) }
{
    slots_behind(l, 3)
}

/// How many terms an iterator's second helper is handed: an element, and what the first one is.
pub(crate) fn wide(l: &Loop<'_>) -> Result<u32, AllocError>
    ensures { IfOk result (λ count. count ≡ suc (handed_of (loop_of l.now))) }
{
    let count = handed(l)?;
    later(count, 1)
}
