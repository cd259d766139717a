//! A block of words: where it begins, how many it has, and who takes it back.
ghost use Rattle.std.specs.Prelude.{◌≡◌, ◌*◌, ◌^◌, ◌<◌, ◌≤◌, [], Some, None, length, replicate, take, get_or, slice_set, IfOk};
ghost use Rattle.pi_region.specs.Ownership.{IsWritten};

use crate::raw::{Cells, Lease, Start, allocate, deallocate, nowhere};
use std::alloc::{AllocError, Global};
use std::marker::Model;

/// A block of words, each written or not yet. Without a word it has no memory.
pub(crate) struct Block {
    start: Start,
    capacity: usize,
    alloc: Global,
    cells: Cells,
    lease: Option<Lease<Global>>,
}

// Clauses see the words, and None for each that is not written yet.
impl Model for Block {
    ghost use Rattle.std.specs.Prelude.{ℕ, List, Option};

    ghost Value = { List (Option ℕ) };

    ghost use Rattle.pi_region.specs.Blocks.{words_of, IsBlock};

    ghost view = { words_of };

    ghost invariant = { IsBlock };
}

impl Drop for Block {
    fn drop(self) {
        let Block {
            start,
            capacity,
            alloc,
            cells,
            lease,
        } = self;
        if let Some(lease) = lease {
            deallocate(&alloc, start, capacity, cells, lease);
        }
    }
}

impl Block {
    /// A block without a word, which takes no memory.
    pub(crate) fn new(alloc: Global) -> Block
        ensures { result ≡ [] }
    {
        let start = nowhere();
        Block {
            start,
            capacity: 0,
            alloc,
            cells: Cells::none(start),
            lease: None,
        }
    }

    /// A block of `capacity` words, none of them written yet.
    pub(crate) fn with_capacity(alloc: Global, capacity: usize) -> Result<Block, AllocError>
        requires positive { 0 < capacity }
        requires fits { capacity * 8 < 2 ^ 63 }
        ensures { IfOk result (λ b. b ≡ replicate capacity None) }
    {
        let (start, cells, lease) = allocate(&alloc, capacity)?;
        Ok(Block {
            start,
            capacity,
            alloc,
            cells,
            lease: Some(lease),
        })
    }

    /// How many words it has.
    pub(crate) fn capacity(&self) -> usize
        ensures capacity { result ≡ length self.now }
        ensures fits { result * 8 < 2 ^ 63 }
    {
        self.capacity
    }

    pub(crate) fn allocator(&self) -> Global {
        self.alloc
    }

    pub(crate) fn load(&self, index: usize) -> u64
        requires { IsWritten self.now index }
        ensures { get_or self.now index None ≡ Some result }
    {
        self.cells.load(self.start, index)
    }

    pub(crate) fn store(&mut self, index: usize, word: u64)
        requires { index < length self.old }
        ensures { self.new ≡ slice_set self.old index (Some word) }
    {
        self.cells.store(self.start, index, word);
    }
}
