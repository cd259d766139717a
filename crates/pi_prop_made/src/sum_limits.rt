//! How many coefficients are at the limit, where a turn of the sign would make them too wide.
ghost use Rattle.std.specs.Prelude.{◌≡◌, ◌+◌, ◌-◌, true, false, IfOk};
ghost use Rattle.pi_prop_made.specs.Kept.{limit_of, LimitsMore, LimitsFewer};

use crate::coefficient::Coefficient;
use std::alloc::AllocError;

/// How many coefficients have the value -2^127: of those that aren't negated, and of those that are.
#[derive(Clone, Copy)]
pub(crate) struct Limits {
    pub(crate) plain: u64,
    pub(crate) negated: u64,
}

impl Limits {
    pub(crate) fn none() -> Limits
        ensures plain { result.plain ≡ 0 }
        ensures negated { result.negated ≡ 0 }
    {
        Limits {
            plain: 0,
            negated: 0,
        }
    }

    /// With one more coefficient.
    pub(crate) fn with(self, coefficient: Coefficient) -> Result<Limits, AllocError>
        ensures { IfOk result (λ made. LimitsMore self coefficient made) }
    {
        if coefficient.value != i128::MIN {
            return Ok(self);
        }
        let plain = if coefficient.negated { 0 } else { 1 };
        let negated = if coefficient.negated { 1 } else { 0 };
        let Some(plain) = self.plain.checked_add(plain) else {
            return Err(AllocError);
        };
        let Some(negated) = self.negated.checked_add(negated) else {
            return Err(AllocError);
        };
        Ok(Limits { plain, negated })
    }

    /// Without a coefficient that may have been there.
    pub(crate) fn without(self, kept: Option<Coefficient>) -> Limits
        ensures { LimitsFewer self kept result }
    {
        let Some(coefficient) = kept else {
            return self;
        };
        if coefficient.value != i128::MIN {
            return self;
        }
        let plain = if coefficient.negated { 0 } else { 1 };
        let negated = if coefficient.negated { 1 } else { 0 };
        Limits {
            plain: self.plain.saturating_sub(plain),
            negated: self.negated.saturating_sub(negated),
        }
    }
}
