//! A source in memory, some of whose calls may be made to fail.
ghost use Rattle.std.specs.Prelude.{◌≡◌, ◌≤◌, ◌<◌, [], ◌∷◌, ◌++◌, Some, length, take, drop, IfOk, OnOk, OnErr, is_err};
ghost use Rattle.pi_outside.specs.Faults.{NeverFalls, Rose};
ghost use Rattle.pi_outside.specs.Calls.{is_due, passed, failed};
ghost use Rattle.pi_outside.specs.Memory.{next_count, after_giving, source_has_read};
ghost use Rattle.pi_outside.specs.Reads.{given_by};

use crate::schedule::Schedule;
use crate::supply::Supply;
use crate::{Failed, Source};
use std::alloc::{AllocError, Global};
use std::marker::Model;

/// A source that gives these bytes, at most `most` of them at each read.
#[derive(Drop)]
pub struct MemorySource {
    supply: Supply,
    calls: Schedule,
}

impl Model for MemorySource {
    ghost use Rattle.pi_outside.specs.Memory.{SourceOfCalls};

    ghost Value = { SourceOfCalls };

    ghost view = { λ s. record { supply = s.supply; calls = s.calls } };
}

impl MemorySource {
    /// All of the bytes are still to be given, and no read is to fail.
    pub fn new(alloc: Global, bytes: &[u8], most: usize) -> Result<MemorySource, AllocError>
        requires { 1 ≤ most }
        ensures supply { IfOk result (λ source. source.supply ≡ record { given = []; rest = bytes.now; most = most }) }
        ensures calls { IfOk result (λ source. source.calls ≡ record { made = 0; failing = []; faults = 0 }) }
    {
        Ok(MemorySource {
            supply: Supply::new(alloc, bytes, most)?,
            calls: Schedule::new(alloc),
        })
    }

    /// The read of this number, from 1 on, is to fail.
    pub fn fail_at(&mut self, call: u64) -> Result<(), AllocError>
        ensures ok { OnOk result (self.new ≡ record self.old
            { calls = record self.old.calls { failing = self.old.calls.failing ++ call ∷ [] } }) }
        ensures err { OnErr result (self.new ≡ self.old) }
    {
        self.calls.fail_at(call)
    }
}

impl Source for MemorySource {
    ghost rest = { λ s. Some s.supply.rest };

    ghost faults = { λ s. s.calls.faults };

    ghost has_read = { source_has_read };

    /// It fails exactly where this call is to fail, and then leaves the slice as it was.
    fn read(&mut self, into: &mut [u8]) -> Result<usize, Failed>
        ensures fails { is_err result ≡ is_due self.old.calls }

        ensures count { IfOk result (λ n. n ≡ next_count self.old.supply (length into.old)) }
        ensures given { IfOk result (λ n. into.new ≡ take n self.old.supply.rest ++ drop n into.old) }
        ensures end { IfOk result (λ n. n ≡ 0 → 0 < length into.old → self.new.supply.rest ≡ []) }
        ensures ok { IfOk result (λ n. self.new ≡ record { supply = after_giving self.old.supply n; calls = passed self.old.calls }) }

        ensures err { OnErr result (self.new ≡ record self.old { calls = failed self.old.calls }) }
        ensures same { OnErr result (into.new ≡ into.old) }
        ensures did { source_has_read self.old (record { room = length into.old; gave = given_by result into.new }) self.new }
        ensures never_falls { NeverFalls self.old.calls.faults self.new.calls.faults }
        ensures rose { OnErr result (Rose self.old.calls.faults self.new.calls.faults) }
    {
        self.calls.call(false)?;
        Ok(self.supply.give(into))
    }
}
