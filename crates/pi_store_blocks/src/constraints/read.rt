//! Constraints that are read.
ghost use Rattle.std.specs.Prelude.{◌≡◌, IfOk};
ghost use Rattle.pi_store_blocks.specs.Block.{block_at};
ghost use Rattle.pi_store_blocks.specs.Constraint.{constraint_in, constant_in};

use crate::block::Block;
use crate::constraints::head::rel_of;
use crate::constraints::items::{item_of, read_items};
use crate::constraints::terms::read_terms;
use crate::wide::joined;
use pi_constraints::Constraint;
use pi_region::Trailed;
use std::alloc::{AllocError, Global};

/// The constraint whose block ends at a place.
pub fn read_constraint(alloc: Global, words: &Trailed, end: usize) -> Result<Constraint, AllocError>
    ensures { IfOk result (λ found. found ≡ constraint_in (block_at words.now.region end)) }
{
    let block = Block::at(words, end);
    let found = read_numbers(alloc, &block)?;
    Ok(found)
}

/// The constraint that the numbers of a block say.
fn read_numbers(alloc: Global, block: &Block) -> Result<Constraint, AllocError>
    ensures { IfOk result (λ found. found ≡ constraint_in block.now) }
{
    match block.get(0) {
        0 => Ok(Constraint::Linear {
            rel: rel_of(block.get(1)),
            terms: read_terms(alloc, block, 6)?,
            constant: read_constant(block),
        }),
        1 => Ok(Constraint::Product {
            z: item_of(block.get(1)),
            x: item_of(block.get(2)),
            y: item_of(block.get(3)),
        }),
        2 => Ok(Constraint::Absolute {
            z: item_of(block.get(1)),
            x: item_of(block.get(2)),
        }),
        3 => Ok(Constraint::Different(read_items(alloc, block, 6)?)),
        4 => Ok(Constraint::Element {
            index: item_of(block.get(1)),
            items: read_items(alloc, block, 6)?,
            value: item_of(block.get(2)),
        }),
        5 => Ok(Constraint::Reified {
            truth: item_of(block.get(5)),
            rel: rel_of(block.get(1)),
            terms: read_terms(alloc, block, 6)?,
            constant: read_constant(block),
        }),
        _ => Ok(Constraint::Distinct(read_items(alloc, block, 6)?)),
    }
}

/// The constant of a sum.
fn read_constant(block: &Block) -> i128
    ensures { result ≡ constant_in block.now }
{
    joined(block.get(2), block.get(3), block.get(4))
}
