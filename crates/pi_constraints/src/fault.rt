//! The error of a domain that can't be made.
ghost use Rattle.std.specs.Prelude.{◌≡◌};
ghost use Rattle.pi_constraints.specs.declared.fault.DomFault.TheVariants.{Memory};

use std::alloc::{AllocError, AllocFailed};

/// Why there is no domain of these values.
#[derive(Clone, Copy)]
pub enum DomFault {
    /// A value lies past the bounds of domains.
    TooWide,
    /// Memory ran out.
    Memory,
}

impl From<AllocError> for DomFault {
    ghost from_gives = { λ _ e. e ≡ Memory };

    fn from(_error: AllocError) -> DomFault {
        DomFault::Memory
    }
}
