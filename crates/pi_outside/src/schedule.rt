//! Which calls of an object in memory are to fail.
ghost use Rattle.std.specs.Prelude.{◌≡◌, [], ◌∷◌, ◌++◌, ◌||◌, OnOk, OnErr, is_err};
ghost use Rattle.pi_outside.specs.Faults.{one_more, NeverFalls, Rose};
ghost use Rattle.pi_outside.specs.Calls.{is_due, passed, failed};

use crate::Failed;
use std::alloc::{AllocError, Global};
use std::marker::Model;

/// Counts a fault.
pub(crate) fn count_fault(faults: &mut u64) -> Failed
    ensures counted { faults.new ≡ one_more faults.old }
    ensures never_falls { NeverFalls faults.old faults.new }
    ensures rose { Rose faults.old faults.new }
{
    *faults = faults.saturating_add(1);
    Failed
}

/// The calls of an object in memory: how many were made and failed, and which are to fail.
#[derive(Drop)]
pub(crate) struct Schedule {
    made: u64,
    failing: Vec<u64>,
    faults: u64,
}

impl Model for Schedule {
    ghost use Rattle.pi_outside.specs.Calls.{Calls};

    ghost Value = { Calls };

    ghost view = { λ s. record { made = s.made; failing = s.failing.items; faults = s.faults } };
}

impl Schedule {
    /// No call was made, and none is to fail.
    pub(crate) fn new(alloc: Global) -> Schedule
        ensures { result ≡ record { made = 0; failing = []; faults = 0 } }
    {
        Schedule {
            made: 0,
            failing: Vec::new(alloc),
            faults: 0,
        }
    }

    /// The call of this number, from 1 on, is to fail.
    pub(crate) fn fail_at(&mut self, call: u64) -> Result<(), AllocError>
        ensures ok { OnOk result (self.new ≡ record self.old { failing = self.old.failing ++ call ∷ [] }) }
        ensures err { OnErr result (self.new ≡ self.old) }
    {
        self.failing.push(call)?;
        Ok(())
    }

    /// Makes one call, which fails where it is to fail or is refused.
    pub(crate) fn call(&mut self, is_refused: bool) -> Result<(), Failed>
        ensures fails { is_err result ≡ (is_due self.old || is_refused) }
        ensures ok { OnOk result (self.new ≡ passed self.old) }
        ensures err { OnErr result (self.new ≡ failed self.old) }
        ensures never_falls { NeverFalls self.old.faults self.new.faults }
        ensures rose { OnErr result (Rose self.old.faults self.new.faults) }
    {
        self.made = self.made.saturating_add(1);
        if self.failing.contains(&self.made) || is_refused {
            return Err(count_fault(&mut self.faults));
        }
        Ok(())
    }
}
