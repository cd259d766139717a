//! Bytes that are given in turn.
ghost use Rattle.std.specs.Prelude.{◌≡◌, ◌≤◌, ◌<◌, [], ◌++◌, length, take, drop, IfOk};
ghost use Rattle.pi_outside.specs.Memory.{next_count, after_giving};

use crate::copy::copy_front;
use std::alloc::{AllocError, Global};
use std::marker::Model;

/// Bytes that are given in turn, at most `most` of them at once.
#[derive(Drop)]
pub(crate) struct Supply {
    bytes: Vec<u8>,
    at: usize,
    most: usize,
}

impl Model for Supply {
    ghost use Rattle.std.specs.Prelude.{◌≤◌, take, drop, vec_len};
    ghost use Rattle.pi_outside.specs.Memory as memory;

    ghost Value = { memory.Supply };

    ghost view = { λ s. record { given = take s.at s.bytes.items; rest = drop s.at s.bytes.items; most = s.most } };

    ghost invariant = { λ s. (s.at ≤ vec_len s.bytes) × (1 ≤ s.most) };
}

impl Supply {
    /// All of the bytes are still to be given.
    pub(crate) fn new(alloc: Global, bytes: &[u8], most: usize) -> Result<Supply, AllocError>
        requires { 1 ≤ most }
        ensures { IfOk result (λ supply. supply ≡ record { given = []; rest = bytes.now; most = most }) }
    {
        Ok(Supply {
            bytes: bytes.to_vec(alloc)?,
            at: 0,
            most,
        })
    }

    /// Gives the next bytes.
    pub(crate) fn give(&mut self, into: &mut [u8]) -> usize
        ensures count { result ≡ next_count self.old (length into.old) }
        ensures given { into.new ≡ take result self.old.rest ++ drop result into.old }
        ensures after { self.new ≡ after_giving self.old result }
        ensures end { result ≡ 0 → 0 < length into.old → self.new.rest ≡ [] }
    {
        let left = self.bytes.len() - self.at;
        let most = self.most.min(left);
        let count = copy_front(&self.bytes[self.at..self.at + most], into);
        self.at += count;
        count
    }
}
