//! Names that terms of a store get.
ghost use Rattle.std.specs.Prelude.{◌≡◌, Some, length, IfOk};
ghost use Rattle.pi_store_blocks.specs.NameTable.{names_of};
ghost use Rattle.pi_store.specs.Changed.{IsNumbered};

use pi_region::{Trailed, data};
use pi_store_blocks::RawNames;
use std::alloc::{AllocError, Global};

/// The number of a name that terms may have from now on. A name that they may not have yet takes a word, which says nothing,
/// so that a return to what is there now takes the name back.
pub fn numbered(
    names: &mut RawNames,
    words: &mut Trailed,
    alloc: Global,
    name: &str,
) -> Result<u32, AllocError>
    ensures moved { IsNumbered names.old names.new words.old words.new name.now }
    ensures ok { IfOk result (λ k. names_of names.new (length words.new.region) k ≡ Some name.now) }
{
    let number = names.number(alloc, name)?;
    if names.is_given(u64::from(number), words.len()) {
        return Ok(number);
    }
    words.append(data(0))?;
    names.give(u64::from(number), words.len());
    Ok(number)
}
