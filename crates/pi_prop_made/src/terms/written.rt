//! What terms are, as they are read.
ghost use Rattle.std.specs.Prelude.{◌≡◌, pos, true, IfOk};
ghost use Rattle.pi_prop_spec.specs.Limits.{are_narrow};
ghost use Rattle.pi_prop_spec.specs.Steps.{have_128_bits, variable_of_terms};

use super::Terms;
use pi_constraints::LinTerms;
use std::alloc::{AllocError, Global};

/// The greatest magnitude of a coefficient in a finished constraint.
const MAX_MAGNITUDE: u128 = 1099511627776;

impl Terms {
    /// The terms, by ascending variables, where they have 128 bits.
    pub(crate) fn written(&self, alloc: Global) -> Result<LinTerms, AllocError>
        requires { have_128_bits self.now ≡ true }
        ensures { IfOk result (λ made. made ≡ self.now) }
    {
        let mut written = LinTerms::new(alloc);
        for (variable, coefficient) in &self.entries {
            if let Some(number) = coefficient.turned(self.negated).number() {
                written.push((number, *variable))?;
            }
        }
        Ok(written)
    }

    /// Whether no coefficient is wider than a finished constraint has it.
    pub(crate) fn are_narrow(&self) -> bool
        ensures { result ≡ are_narrow self.now }
    {
        for (_, coefficient) in &self.entries {
            if MAX_MAGNITUDE < coefficient.value.unsigned_abs() {
                return false;
            }
        }
        true
    }

    /// The variable that stands alone, with the coefficient 1.
    pub(crate) fn single(&self) -> Option<u64>
        ensures { result ≡ variable_of_terms self.now (pos 0) }
    {
        if self.entries.len() != 1 {
            return None;
        }
        let Some((variable, coefficient)) = self.entries.first_key_value() else {
            return None;
        };
        if coefficient.turned(self.negated).is_one() {
            Some(*variable)
        } else {
            None
        }
    }
}
