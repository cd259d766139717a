//! The terms of a sum, by their variables.
ghost use Rattle.std.specs.Prelude.{◌≡◌, ◌≢◌, [], length, pos, negsuc, true, OnOk};
ghost use Rattle.pi_prop_spec.specs.Steps.{have_128_bits};
ghost use Rattle.pi_prop_spec.specs.PostingSums.{coefficient, Ascend};
ghost use Rattle.pi_prop_made.specs.Signed.{signed};
ghost use Rattle.pi_prop_made.specs.Changes.{Sets, Joins, Scales};

mod adding;
mod written;

use crate::coefficient::Coefficient;
use crate::stop::SumStop;
use crate::sum_limits::Limits;
use std::alloc::{AllocError, Global};
use std::collections::BTreeMap;
use std::marker::Model;

/// Joined terms, by ascending variables, with one sign in front of all. A contract sees the terms as a sum has them.
#[derive(Drop)]
pub(crate) struct Terms {
    negated: bool,
    entries: BTreeMap<u64, Coefficient>,
    limits: Limits,
}

impl Model for Terms {
    ghost use Rattle.std.specs.Prelude.{List, ℤ, ℕ};
    ghost use Rattle.pi_prop_made.specs.Kept.{terms_of, IsKept};

    ghost Value = { List (ℤ × ℕ) };

    ghost view = { λ a. terms_of a.negated a.entries.entries };

    ghost invariant = { λ a. IsKept a.negated a.entries.entries a.limits };
}

impl Terms {
    /// No terms.
    pub(crate) fn new(alloc: Global) -> Terms
        ensures { result ≡ [] }
    {
        Terms {
            negated: false,
            entries: BTreeMap::new(alloc),
            limits: Limits::none(),
        }
    }

    /// How many terms there are.
    pub(crate) fn len(&self) -> usize
        ensures count { result ≡ length self.now }
        ensures ascend { Ascend 0 self.now }
    {
        self.entries.len()
    }

    /// Whether each coefficient has 128 bits.
    pub(crate) fn fit(&self) -> bool
        ensures fit { result ≡ have_128_bits self.now }
        ensures ascend { Ascend 0 self.now }
    {
        if self.negated {
            self.limits.plain == 0
        } else {
            self.limits.negated == 0
        }
    }

    /// Gives each coefficient the other sign.
    pub(crate) fn negate(&mut self)
        ensures { Scales (negsuc 0) self.old self.new }
    {
        self.negated = !self.negated;
    }

    /// The coefficient of a variable, 0 where it has no term.
    fn coefficient(&self, variable: u64) -> Coefficient
        ensures { signed result.negated result.value ≡ coefficient self.now variable }
    {
        match self.entries.get(&variable) {
            Some(kept) => kept.turned(self.negated),
            None => Coefficient::new(0, false),
        }
    }

    /// Takes the term of a variable.
    fn remove(&mut self, variable: u64)
        ensures { Sets self.old self.new variable (pos 0) }
    {
        let kept = self.entries.remove(&variable);
        self.limits = self.limits.without(kept);
    }

    /// Gives a variable a coefficient other than 0.
    fn put(&mut self, variable: u64, coefficient: i128) -> Result<(), AllocError>
        requires { coefficient ≢ pos 0 }
        ensures { OnOk result (Sets self.old self.new variable coefficient) }
    {
        let coefficient = Coefficient::new(coefficient, self.negated);
        let limits = self.limits.with(coefficient)?;
        let kept = self.entries.insert(variable, coefficient)?;
        self.limits = limits.without(kept);
        Ok(())
    }

    /// One more term.
    pub(crate) fn join(&mut self, variable: u64, more: Coefficient) -> Result<(), SumStop>
        ensures { Joins self.old self.new variable (signed more.negated more.value) result }
    {
        let Some(coefficient) = more.plus(self.coefficient(variable)) else {
            return Err(SumStop::Wide);
        };
        if coefficient == 0 {
            self.remove(variable);
        } else if self.put(variable, coefficient).is_err() {
            return Err(SumStop::Memory);
        }
        Ok(())
    }
}
