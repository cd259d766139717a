//! Blocks that are read.
ghost use Rattle.std.specs.Prelude.{◌≡◌, ◌<◌, ◌^◌, length, slice_index};
ghost use Rattle.pi_store_blocks.specs.Block.{block_at};

use pi_region::{Trailed, value};
use std::marker::Model;

/// A block of a region. A contract sees its numbers.
#[derive(Drop)]
pub struct Block<'a> {
    words: &'a Trailed,
    start: usize,
    count: usize,
}

impl<'a> Model for Block<'a> {
    ghost use Rattle.std.specs.Prelude.{ℕ, List, ◌+◌, ◌≤◌, length};
    ghost use Rattle.pi_store_blocks.specs.Block.{numbers_in};

    ghost Value = { List ℕ };

    ghost view = { λ b. numbers_in b.words.now.region b.start b.count };

    ghost invariant = { λ b. b.start + b.count ≤ length b.words.now.region };
}

impl<'a> Block<'a> {
    /// The block that ends at a place. It takes no memory.
    pub fn at(words: &'a Trailed, end: usize) -> Block<'a>
        ensures { result ≡ block_at words.entry.now.region end }
    {
        let last = end.saturating_sub(1);
        if end == 0 || last >= words.len() {
            return Block {
                words,
                start: 0,
                count: 0,
            };
        }
        let start = last.saturating_sub(value(words.word(last)) as usize);
        Block {
            words,
            start,
            count: last - start,
        }
    }

    /// How many numbers it has.
    pub fn len(&self) -> usize
        ensures { result ≡ length self.now }
    {
        self.count
    }

    /// The number at a place, counted from 0; 0 past its end.
    pub fn get(&self, i: usize) -> u64
        ensures is { result ≡ slice_index self.now i }
        ensures small { result < 2 ^ 59 }
    {
        let _len = self.words.len();
        if i < self.count {
            value(self.words.word(self.start + i))
        } else {
            0
        }
    }
}
