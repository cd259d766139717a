//! Heads: how many activations were taken, and behind it where the list of each variable ends.
ghost use Rattle.std.specs.Prelude.{◌≡◌, ◌+◌, ◌<◌, ◌^◌, length, IfOk, OnErr};
ghost use Rattle.pi_region.specs.Image.{Image};
ghost use Rattle.pi_region.specs.Back.{Advances};
ghost use Rattle.pi_store.specs.Heads.{taken_in, list_end, Pads, SetsHead};

use pi_region::{Table, Trailed};
use std::alloc::AllocError;

/// How many activations were taken. It takes no memory.
pub fn taken_in(words: &Trailed) -> u64
    ensures { result ≡ taken_in words.now }
{
    words.get(Table::Heads, 0)
}

/// Where the list of a variable ends; 0 where it has none. It takes no memory.
pub fn list_end(words: &Trailed, v: u64) -> usize
    ensures { result ≡ list_end words.now v }
{
    if v >= words.count(Table::Heads) as u64 {
        return 0;
    }
    words.get(Table::Heads, v as usize + 1) as usize
}

/// Zeros at the end of the heads, so that there is one at a place.
fn pad(words: &mut Trailed, place: usize) -> Result<(), AllocError>
    requires { place < 2 ^ 59 }
    ensures ok { IfOk result (λ _. place < length words.new.heads) }
    ensures pads { Pads words.old words.new }
    ensures advances { Advances words.old words.new }
{
    let _len = words.len();
    for _ in words.count(Table::Heads)..place + 1 {
        words.push(Table::Heads, 0)?;
    }
    Ok(())
}

/// Another word for a head, behind zeros where there are fewer. A refusal leaves zeros.
pub fn write_head(words: &mut Trailed, place: usize, word: u64) -> Result<(), AllocError>
    requires { place < 2 ^ 59 }
    ensures ok { IfOk result (λ _. SetsHead words.old words.new place word) }
    ensures pads { OnErr result (Pads words.old words.new) }
    ensures advances { Advances words.old words.new }
{
    pad(words, place)?;
    words.replace(Table::Heads, place, word)?;
    Ok(())
}

/// One activation was taken besides so many.
pub fn count_taken(words: &mut Trailed, taken: u64) -> Result<(), AllocError>
    requires { taken < 2 ^ 60 }
    ensures ok { IfOk result (λ _. SetsHead words.old words.new 0 (taken + 1)) }
    ensures advances { Advances words.old words.new }
    ensures err { OnErr result (words.new ≡ words.old) }
{
    let start = words.len();
    match write_head(words, 0, taken + 1) {
        Ok(()) => Ok(()),
        Err(refused) => Err(give_back(words, start, refused)),
    }
}

/// Brings the words back to what they were when the region had this length, and answers why.
pub fn give_back(words: &mut Trailed, len: usize, why: AllocError) -> AllocError
    ensures { (before : Image) → Advances before words.old → len ≡ length before.region → words.new ≡ before }
{
    words.undo(len);
    why
}
