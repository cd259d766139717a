//! A pool of regions, which keeps the blocks of those that are given back.
ghost use Rattle.std.specs.Prelude.{◌≡◌, ◌<◌, ◌≤◌, [], OnOk, OnErr, IfOk};
ghost use Rattle.pi_region.specs.Pool.{TakesOne, GivesKept, Keeps, made_by};

use crate::words::Words;
use std::alloc::{AllocError, Global};
use std::marker::Model;

/// Regions to take and to give back. A region that is given back keeps its block, for the one who
/// takes it next, so the pool makes only as many as were ever out at one time. The regions that it
/// keeps are given back to the allocator when it is dropped.
#[derive(Drop)]
pub struct Pool {
    alloc: Global,
    kept: Vec<Words>,
    outstanding: u64,
}

// Clauses see the regions that are kept, and how many are out.
impl Model for Pool {
    ghost use Rattle.pi_region.specs.Pool.{Regions};

    ghost Value = { Regions };

    ghost use Rattle.pi_region.specs.Views.{regions_of, IsPool};

    ghost view = { regions_of };

    ghost invariant = { IsPool };
}

impl Pool {
    /// A pool that has made no region. It takes no memory.
    pub fn new(alloc: Global) -> Pool
        ensures kept { result.kept ≡ [] }
        ensures outstanding { result.outstanding ≡ 0 }
    {
        Pool {
            alloc,
            kept: Vec::new(alloc),
            outstanding: 0,
        }
    }

    /// An empty region: one that was given back, or a new one where all are out. The pool makes room
    /// for its return first, and after an error it is as it was.
    pub fn take(&mut self) -> Result<Words, AllocError>
        ensures empty { IfOk result (λ region. region.words ≡ []) }
        ensures kept { IfOk result (λ region. GivesKept self.old self.new region) }
        ensures ok { OnOk result (TakesOne self.old self.new) }
        // Only a pool whose regions are all out takes memory.
        ensures all_out { OnErr result (self.old.kept ≡ []) }
        ensures err { OnErr result (self.new ≡ self.old) }
    {
        if let Some(region) = self.kept.pop() {
            self.outstanding += 1;
            return Ok(region);
        }
        self.kept.reserve(self.outstanding as usize + 1)?;
        self.outstanding += 1;
        Ok(Words::new(self.alloc))
    }

    /// Empties a region and keeps it. It takes no memory.
    pub fn give(&mut self, mut region: Words)
        requires { 0 < self.old.outstanding }
        ensures { Keeps self.old self.new region }
    {
        region.truncate(0);
        self.kept.push_reserved(region);
        self.outstanding -= 1;
    }

    /// How many regions the pool has made.
    pub fn made(&self) -> u64
        ensures { result ≡ made_by self.now }
    {
        self.kept.len() as u64 + self.outstanding
    }

    /// How many of them are taken and not given back.
    pub fn outstanding(&self) -> u64
        ensures { result ≡ self.now.outstanding }
    {
        self.outstanding
    }
}
