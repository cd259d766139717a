//! Why a text isn't read as a path.
use std::alloc::AllocError;

/// Why a text isn't read as a path.
#[derive(Clone, Copy)]
pub enum PathFault {
    /// It is no token.
    BadPath,
    Memory,
}

impl From<AllocError> for PathFault {
    ghost use Rattle.std.specs.Prelude.{◌≡◌};
    ghost use Rattle.pi_resume.specs.declared.fault.PathFault.TheVariants.{Memory};

    ghost from_gives = { λ _ e. e ≡ Memory };

    fn from(_e: AllocError) -> PathFault {
        PathFault::Memory
    }
}
