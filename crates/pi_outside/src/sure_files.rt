//! Files in memory that never fail.
ghost use Rattle.std.specs.Prelude.{◌≡◌, ◌<◌, ◌-◌, ℕ, List, [], ◌++◌, Some, Ok, min, length, take, drop, IfOk, OnOk, OnErr};
ghost use Rattle.pi_outside.specs.Held.{bytes_of, EndsBy};

use crate::copy::copy_from;
use crate::named::Named;
use crate::{Failed, Files};
use std::alloc::{AllocError, Global};

/// Files in memory. A name that was not added is a file without bytes, so that no read fails.
#[derive(Drop)]
pub struct SureFiles {
    named: Named,
}

impl SureFiles {
    ghost use Rattle.pi_outside.specs.SureFiles.{held_by};
    ghost use Rattle.pi_outside.specs.Named.{with_file};

    /// Each name is a file without bytes.
    pub fn new(alloc: Global) -> SureFiles
        ensures { (name : List ℕ) → held_by result name ≡ Some [] }
    {
        SureFiles {
            named: Named::new(alloc),
        }
    }

    /// Puts these bytes in the file of this name.
    pub fn add(&mut self, name: &str, bytes: &[u8]) -> Result<(), AllocError>
        ensures ok { OnOk result ((other : List ℕ) → held_by self.new other ≡ with_file (held_by self.old) name.now bytes.now other) }
        ensures err { OnErr result ((other : List ℕ) → held_by self.new other ≡ held_by self.old other) }
    {
        self.named.add(name, bytes)
    }
}

impl Files for SureFiles {
    ghost use Rattle.pi_outside.specs.SureFiles.{held_by, sure_has_read};

    ghost held = { λ files. Some (held_by files) };

    ghost faults = { λ _. 0 };

    ghost has_read = { sure_has_read };

    /// Copies all that there is and has room.
    fn read_at(&mut self, name: &str, at: u64, into: &mut [u8]) -> Result<usize, Failed>
        ensures ok { result ≡ Ok (min (length (bytes_of (held_by self.old) name.now) - at) (length into.old)) }
        ensures copied { IfOk result (λ n. into.new ≡ take n (drop at (bytes_of (held_by self.old) name.now)) ++ drop n into.old) }
        ensures end { IfOk result (λ n. n ≡ 0 → 0 < length into.old → EndsBy (Some (held_by self.new)) name.now at) }
        ensures files { held_by self.new ≡ held_by self.old }
    {
        Ok(copy_from(self.named.get(name).unwrap_or(&[]), at, into))
    }
}
