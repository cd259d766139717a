//! Constraints in their table.
ghost use Rattle.std.specs.Prelude.{◌≡◌, slice_index, IfOk};
ghost use Rattle.pi_store_blocks.specs.ConstraintTable.{constraint_at};

use crate::constraints::read::read_constraint;
use pi_constraints::Constraint;
use pi_region::{Table, Trailed};
use std::alloc::{AllocError, Global};

/// The constraint with this number; one of no items or terms for a number past the last.
pub fn numbered_constraint(alloc: Global, words: &Trailed, i: u64) -> Result<Constraint, AllocError>
    ensures { IfOk result (λ found. found ≡ constraint_at words.now.region (slice_index words.now.constraints i)) }
{
    let end = words.get(Table::Constraints, i as usize) as usize;
    let found = read_constraint(alloc, words, end)?;
    Ok(found)
}
