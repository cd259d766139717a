//! Values that go from a place. Where none goes, nothing is copied.
ghost use Rattle.std.specs.Prelude.{◌≡◌, ◌&&◌, not, true, false, ℤ, ◌≤ℤ◌, IfOk, IsTrue, int_le};
ghost use Rattle.std.specs.Ordering.{int_eq};
ghost use Rattle.pi_constraints.specs.Domain.{has_value};

use crate::asks::{has_value_between, lies_within};
use crate::held::Held;
use pi_constraints::{Domain, StoredDomains};
use std::alloc::{AllocError, Global};

impl<'a, S: StoredDomains> Held<'a, S> {
    /// Leaves the values that are at least `n`.
    pub fn cut_below(&mut self, alloc: Global, n: i128) -> Result<(), AllocError>
        ensures { IfOk result (λ _. (m : ℤ) → has_value self.new m ≡ (has_value self.old m && int_le n m)) }
    {
        if n <= i128::from(self.least()) {
            return Ok(());
        }
        let mut own = self.take(alloc)?;
        own.cut_below(n);
        self.put(own);
        Ok(())
    }

    /// Leaves the values that are at most `n`.
    pub fn cut_above(&mut self, alloc: Global, n: i128) -> Result<(), AllocError>
        ensures { IfOk result (λ _. (m : ℤ) → has_value self.new m ≡ (has_value self.old m && int_le m n)) }
    {
        if i128::from(self.greatest()) <= n {
            return Ok(());
        }
        let mut own = self.take(alloc)?;
        own.cut_above(n);
        self.put(own);
        Ok(())
    }

    /// Leaves the values other than `n`.
    pub fn remove(&mut self, alloc: Global, n: i128) -> Result<(), AllocError>
        ensures { IfOk result (λ _. (m : ℤ) → has_value self.new m ≡ (has_value self.old m && not (int_eq m n))) }
    {
        if !has_value_between(self, n, n) {
            return Ok(());
        }
        let mut own = self.take(alloc)?;
        own.remove(n)?;
        self.put(own);
        Ok(())
    }

    /// Leaves the values that a domain has too.
    pub fn keep(&mut self, alloc: Global, kept: &Domain) -> Result<(), AllocError>
        ensures { IfOk result (λ _. (m : ℤ) → has_value self.new m ≡ (has_value self.old m && has_value kept.now m)) }
    {
        if lies_within(self, kept.spans()) {
            return Ok(());
        }
        let mut own = self.take(alloc)?;
        own.keep(alloc, kept)?;
        self.put(own);
        Ok(())
    }
}
