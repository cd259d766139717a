//! Blocks that are written.
ghost use Rattle.std.specs.Prelude.{◌≡◌, ◌∷◌, [], ℕ, List, ◌<◌, ◌^◌, length, map, IfOk, OnErr};
ghost use Rattle.pi_region.specs.Entry.{data_of};
ghost use Rattle.pi_region.specs.Image.{Image, appended};
ghost use Rattle.pi_store_blocks.specs.Heap.{Appends};
ghost use Rattle.pi_store_blocks.specs.Block.{IsBefore, Writes};

use pi_region::{Trailed, data};
use std::alloc::AllocError;

/// How many numbers a block may have. More is want of memory.
const MOST_NUMBERS: u64 = 576_460_752_303_423_488;

/// Closes the block of the numbers that were written from `start` on, and answers where it ends. Where that is refused, the
/// words are again what they were when they ended there.
pub fn close(words: &mut Trailed, start: usize) -> Result<usize, AllocError>
    ensures ok { IfOk result (λ end. (before : Image) (numbers : List ℕ) → IsBefore before start →
        words.old ≡ appended before (map data_of numbers) → Writes before words.new numbers end) }
    ensures err { OnErr result ((before : Image) → IsBefore before start → Appends before words.old → words.new ≡ before) }
{
    let count = words.len().saturating_sub(start) as u64;
    match append_count(words, count) {
        Ok(()) => Ok(words.len()),
        Err(refused) => Err(give_up(words, start, refused)),
    }
}

/// Brings the words back to what they were when they ended at `start`, and answers why.
pub fn give_up(words: &mut Trailed, start: usize, why: AllocError) -> AllocError
    ensures { (before : Image) → IsBefore before start → Appends before words.old → words.new ≡ before }
{
    words.undo(start);
    why
}

/// How many numbers a block has, as its last word.
fn append_count(words: &mut Trailed, count: u64) -> Result<(), AllocError>
    ensures ok { IfOk result (λ _. words.new ≡ appended words.old (data_of count ∷ [])) }
    ensures err { OnErr result (words.new ≡ words.old) }
{
    if count >= MOST_NUMBERS {
        return Err(AllocError);
    }
    words.append(data(count))?;
    Ok(())
}
