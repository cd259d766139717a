//! Files in memory, some of whose reads may be made to fail.
ghost use Rattle.std.specs.Prelude.{◌≡◌, ◌<◌, ◌-◌, ℕ, List, [], ◌∷◌, ◌++◌, ◌||◌, None, Some, min, length, take, drop, IfOk, OnOk, OnErr, is_err, is_none};
ghost use Rattle.pi_outside.specs.Faults.{NeverFalls, Rose};
ghost use Rattle.pi_outside.specs.Calls.{is_due, passed, failed};
ghost use Rattle.pi_outside.specs.Held.{bytes_of, EndsBy};

use crate::copy::copy_from;
use crate::named::Named;
use crate::schedule::Schedule;
use crate::{Failed, Files};
use std::alloc::{AllocError, Global};

/// Files in memory. A read of a name that was not added fails.
#[derive(Drop)]
pub struct MemoryFiles {
    named: Named,
    calls: Schedule,
}

impl MemoryFiles {
    ghost use Rattle.pi_outside.specs.MemoryFiles.{held_by, calls_of};
    ghost use Rattle.pi_outside.specs.Named.{with_file};

    /// No files, and no read is to fail.
    pub fn new(alloc: Global) -> MemoryFiles
        ensures files { (name : List ℕ) → held_by result name ≡ None }
        ensures calls { calls_of result ≡ record { made = 0; failing = []; faults = 0 } }
    {
        MemoryFiles {
            named: Named::new(alloc),
            calls: Schedule::new(alloc),
        }
    }

    /// Adds a file, in the place of any that has its name.
    pub fn add(&mut self, name: &str, bytes: &[u8]) -> Result<(), AllocError>
        ensures ok { OnOk result ((other : List ℕ) → held_by self.new other ≡ with_file (held_by self.old) name.now bytes.now other) }
        ensures err { OnErr result ((other : List ℕ) → held_by self.new other ≡ held_by self.old other) }
        ensures calls { calls_of self.new ≡ calls_of self.old }
    {
        self.named.add(name, bytes)
    }

    /// The read of this number, from 1 on, is to fail.
    pub fn fail_at(&mut self, call: u64) -> Result<(), AllocError>
        ensures ok { OnOk result (calls_of self.new ≡ record (calls_of self.old) { failing = (calls_of self.old).failing ++ call ∷ [] }) }
        ensures err { OnErr result (calls_of self.new ≡ calls_of self.old) }
        ensures files { held_by self.new ≡ held_by self.old }
    {
        self.calls.fail_at(call)
    }
}

impl Files for MemoryFiles {
    ghost use Rattle.pi_outside.specs.MemoryFiles.{held_by, calls_of, memory_has_read};

    ghost held = { λ files. Some (held_by files) };

    ghost faults = { λ files. (calls_of files).faults };

    ghost has_read = { memory_has_read };

    /// Copies all that there is and has room. It fails exactly where this call is to fail or there is no file of this
    /// name, and then leaves the slice as it was.
    fn read_at(&mut self, name: &str, at: u64, into: &mut [u8]) -> Result<usize, Failed>
        ensures fails { is_err result ≡ (is_due (calls_of self.old) || is_none (held_by self.old name.now)) }

        ensures count { IfOk result (λ n. n ≡ min (length (bytes_of (held_by self.old) name.now) - at) (length into.old)) }
        ensures copied { IfOk result (λ n. into.new ≡ take n (drop at (bytes_of (held_by self.old) name.now)) ++ drop n into.old) }
        ensures end { IfOk result (λ n. n ≡ 0 → 0 < length into.old → EndsBy (Some (held_by self.new)) name.now at) }
        ensures ok { OnOk result (calls_of self.new ≡ passed (calls_of self.old)) }

        ensures err { OnErr result (calls_of self.new ≡ failed (calls_of self.old)) }
        ensures same { OnErr result (into.new ≡ into.old) }
        ensures files { held_by self.new ≡ held_by self.old }
        ensures never_falls { NeverFalls (calls_of self.old).faults (calls_of self.new).faults }
        ensures rose { OnErr result (Rose (calls_of self.old).faults (calls_of self.new).faults) }
    {
        let file = self.named.get(name);
        self.calls.call(file.is_none())?;
        Ok(copy_from(file.unwrap_or(&[]), at, into))
    }
}
