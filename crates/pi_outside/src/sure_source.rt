//! A source in memory that never fails.
ghost use Rattle.std.specs.Prelude.{◌≡◌, ◌≤◌, ◌<◌, [], ◌++◌, Some, Ok, length, take, drop, IfOk};
ghost use Rattle.pi_outside.specs.Memory.{next_count, after_giving, supply_has_read};

use crate::supply::Supply;
use crate::{Failed, Source};
use std::alloc::{AllocError, Global};
use std::marker::Model;

/// A source that gives these bytes, at most `most` of them at each read, and never fails.
#[derive(Drop)]
pub struct SureSource {
    supply: Supply,
}

impl Model for SureSource {
    ghost use Rattle.pi_outside.specs.Memory.{Supply};

    ghost Value = { Supply };

    ghost view = { λ s. s.supply };
}

impl SureSource {
    /// All of the bytes are still to be given.
    pub fn new(alloc: Global, bytes: &[u8], most: usize) -> Result<SureSource, AllocError>
        requires { 1 ≤ most }
        ensures { IfOk result (λ source. source ≡ record { given = []; rest = bytes.now; most = most }) }
    {
        Ok(SureSource {
            supply: Supply::new(alloc, bytes, most)?,
        })
    }
}

impl Source for SureSource {
    ghost rest = { λ s. Some s.rest };

    ghost faults = { λ _. 0 };

    ghost has_read = { supply_has_read };

    /// It never fails.
    fn read(&mut self, into: &mut [u8]) -> Result<usize, Failed>
        ensures ok { result ≡ Ok (next_count self.old (length into.old)) }
        ensures given { let n = next_count self.old (length into.old) in into.new ≡ take n self.old.rest ++ drop n into.old }
        ensures after { self.new ≡ after_giving self.old (next_count self.old (length into.old)) }
        ensures end { next_count self.old (length into.old) ≡ 0 → 0 < length into.old → self.new.rest ≡ [] }
    {
        Ok(self.supply.give(into))
    }
}
