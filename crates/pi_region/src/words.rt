//! A region of words, which grows at its end.
ghost use Rattle.std.specs.Prelude.{◌≡◌, ℕ, ◌≢◌, ◌+◌, ◌*◌, ◌^◌, ◌<◌, ◌≤◌, [], ◌∷◌, ◌++◌, length, take, min, slice_index, slice_set, IsOk, OnOk, OnErr, IfOk};
ghost use Rattle.std.specs.List.{SameBelow};
ghost use Rattle.pi_region.specs.Words.{block_len, most_words, HasDoubled, AreWritten};

use crate::block::Block;
use std::alloc::{AllocError, Global};
use std::cmp::{max, min};
use std::marker::Model;

/// The most words that a block can have: it takes fewer than 2 ^ 63 bytes, and a word takes 8.
const MOST_WORDS: usize = isize::MAX as usize / 8;

/// A list of words in one block of memory, which is given back when the region is dropped. Only
/// `reserve` takes memory for it, and no other call but `reserve` moves or frees the block.
#[derive(Drop)]
pub struct Words {
    block: Block,
    len: usize,
}

// Clauses see the words, and how many more fit before the region has to grow.
impl Model for Words {
    ghost use Rattle.pi_region.specs.Words.{Region};

    ghost Value = { Region };

    ghost use Rattle.pi_region.specs.Views.{region_of, IsRegion};

    ghost view = { region_of };

    ghost invariant = { IsRegion };
}

impl Words {
    /// A region without a word and without spare room. It takes no memory.
    pub fn new(alloc: Global) -> Words
        ensures words { result.words ≡ [] }
        ensures spare { result.spare ≡ 0 }
    {
        Words {
            block: Block::new(alloc),
            len: 0,
        }
    }

    /// Makes room for at least `n` more words. A block that is too small is doubled at least, so that
    /// n pushes, each after a `reserve(1)`, take time linear in n. A number of words that no block can
    /// have counts as want of memory, and after an error the region is as it was.
    pub fn reserve(&mut self, n: usize) -> Result<(), AllocError>
        ensures words { self.new.words ≡ self.old.words }
        ensures ok { OnOk result (n ≤ self.new.spare) }
        ensures grows { self.old.spare ≤ self.new.spare }
        // It takes memory only where the room was missing, and then the block doubles.
        ensures enough { n ≤ self.old.spare → IsOk result × (self.new ≡ self.old) }
        ensures doubles { self.old.spare < n → OnOk result (HasDoubled self.old self.new) }
        ensures err { OnErr result (self.new ≡ self.old) }
    {
        if n <= self.block.capacity() - self.len {
            return Ok(());
        }
        self.grow(n)
    }

    /// Moves the words to a larger block with room for `n` more. It stands apart, so that what `reserve`
    /// inlines stays small.
    #[cold]
    #[inline(never)]
    fn grow(&mut self, n: usize) -> Result<(), AllocError>
        requires { self.old.spare < n }
        ensures words { self.new.words ≡ self.old.words }
        ensures ok { OnOk result (n ≤ self.new.spare) }
        ensures doubles { OnOk result (HasDoubled self.old self.new) }
        ensures err { OnErr result (self.new ≡ self.old) }
    {
        if MOST_WORDS - self.len < n {
            return Err(AllocError);
        }
        let capacity = grown(self.block.capacity(), self.len + n);
        let mut block = Block::with_capacity(self.block.allocator(), capacity)?;
        copy_front(&self.block, &mut block, self.len);
        self.block = block;
        Ok(())
    }

    /// The same words in a block of their own, which has no room for more.
    pub fn copied(&self, alloc: Global) -> Result<Words, AllocError>
        ensures words { IfOk result (λ made. made.words ≡ self.now.words) }
        ensures spare { IfOk result (λ made. made.spare ≡ 0) }
    {
        let len = self.len;
        if len == 0 {
            return Ok(Words::new(alloc));
        }
        let mut block = Block::with_capacity(alloc, len)?;
        copy_front(&self.block, &mut block, len);
        Ok(Words { block, len })
    }

    /// Appends `word`. It takes no memory.
    pub fn push(&mut self, word: u64)
        requires { 0 < self.old.spare }
        ensures words { self.new.words ≡ self.old.words ++ word ∷ [] }
        ensures spare { self.new.spare + 1 ≡ self.old.spare }
        ensures others { SameBelow self.old.words self.new.words (length self.old.words) }
    {
        self.block.store(self.len, word);
        self.len += 1;
    }

    /// The word at `index`.
    pub fn get(&self, index: usize) -> u64
        requires { index < length self.now.words }
        ensures { result ≡ slice_index self.now.words index }
    {
        self.block.load(index)
    }

    /// Puts `word` in the place of the word at `index`.
    pub fn set(&mut self, index: usize, word: u64)
        requires { index < length self.old.words }
        ensures words { self.new.words ≡ slice_set self.old.words index word }
        ensures spare { self.new.spare ≡ self.old.spare }
        ensures others { (i : ℕ) → i ≢ index → slice_index self.new.words i ≡ slice_index self.old.words i }
    {
        self.block.store(index, word);
    }

    /// Drops the words from the `n`th on, and keeps the block.
    pub fn truncate(&mut self, n: usize)
        requires { n ≤ length self.old.words }
        ensures words { self.new.words ≡ take n self.old.words }
        ensures block { block_len self.new ≡ block_len self.old }
    {
        self.len = n;
    }

    /// How many words there are.
    pub fn len(&self) -> usize
        ensures len { result ≡ length self.now.words }
        ensures small { block_len self.now ≤ most_words }
    {
        self.len
    }
}

/// How many words a block of `capacity` words has once it has grown to at least `wanted`.
fn grown(capacity: usize, wanted: usize) -> usize
    requires { (capacity ≤ most_words) × (wanted ≤ most_words) }
    ensures wanted { wanted ≤ result }
    ensures most { result ≤ most_words }
    ensures doubles { min (2 * capacity) most_words ≤ result }
{
    max(wanted, min(2 * capacity, MOST_WORDS))
}

/// Copies the first `n` words of `from` to the front of `to`.
fn copy_front(from: &Block, to: &mut Block, n: usize)
    requires from { AreWritten n from.now }
    requires to { n ≤ length to.old }
    ensures front { take n to.new ≡ take n from.now }
    ensures len { length to.new ≡ length to.old }
{
    for i in 0..n {
        to.store(i, from.load(i));
    }
}
