//! Constraints that are written.
ghost use Rattle.std.specs.Prelude.{◌≡◌, map, IfOk, OnErr};
ghost use Rattle.pi_region.specs.Entry.{data_of};
ghost use Rattle.pi_region.specs.Image.{appended};
ghost use Rattle.pi_store_blocks.specs.Heap.{Appends};
ghost use Rattle.pi_store_blocks.specs.Block.{Writes};
ghost use Rattle.pi_store_blocks.specs.Constraint.{tail_of, numbers_of};

use crate::constraints::head::append_head;
use crate::constraints::items::append_items;
use crate::constraints::terms::append_terms;
use crate::written::{close, give_up};
use pi_constraints::Constraint;
use pi_region::Trailed;
use std::alloc::AllocError;

/// Writes a constraint, and answers where its block ends.
pub fn write_constraint(words: &mut Trailed, constraint: &Constraint) -> Result<usize, AllocError>
    ensures ok { IfOk result (λ end. Writes words.old words.new (numbers_of constraint.now) end) }
    ensures err { OnErr result (words.new ≡ words.old) }
{
    let start = words.len();
    match append_constraint(words, constraint) {
        Ok(()) => Ok(close(words, start)?),
        Err(refused) => Err(give_up(words, start, refused)),
    }
}

/// The numbers of a constraint.
fn append_constraint(words: &mut Trailed, constraint: &Constraint) -> Result<(), AllocError>
    ensures ok { IfOk result (λ _. words.new ≡ appended words.old (map data_of (numbers_of constraint.now))) }
    ensures appends { Appends words.old words.new }
{
    append_head(words, constraint)?;
    append_tail(words, constraint)?;
    Ok(())
}

/// The items or the terms of a constraint.
fn append_tail(words: &mut Trailed, constraint: &Constraint) -> Result<(), AllocError>
    ensures ok { IfOk result (λ _. words.new ≡ appended words.old (map data_of (tail_of constraint.now))) }
    ensures appends { Appends words.old words.new }
{
    match constraint {
        Constraint::Linear { terms, .. } => Ok(append_terms(words, terms.as_slice())?),
        Constraint::Product { .. } => Ok(()),
        Constraint::Absolute { .. } => Ok(()),
        Constraint::Different(items) => Ok(append_items(words, items.as_slice())?),
        Constraint::Element { items, .. } => Ok(append_items(words, items.as_slice())?),
        Constraint::Reified { terms, .. } => Ok(append_terms(words, terms.as_slice())?),
        Constraint::Distinct(items) => Ok(append_items(words, items.as_slice())?),
    }
}
