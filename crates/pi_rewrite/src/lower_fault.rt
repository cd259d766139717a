//! Why a program or a goal isn't lowered.
ghost use Rattle.std.specs.Prelude.{◌≡◌};
ghost use Rattle.pi_rewrite.specs.declared.lower_fault.LowerFault.TheVariants.{Memory};

use std::alloc::AllocError;
use thiserror::Error;

/// Why a program or a goal isn't lowered. What isn't built is told before memory is wanted (own).
#[derive(Clone, Copy, Debug, Error)]
pub enum LowerFault {
    /// The part has what isn't built. Parts are counted from 1; a goal is one part.
    #[error("part {number} is not built")]
    NotBuilt { number: u64 },
    #[error("want of memory")]
    Memory,
}

impl From<AllocError> for LowerFault {
    ghost from_gives = { λ _ e. e ≡ Memory };

    fn from(_error: AllocError) -> LowerFault {
        LowerFault::Memory
    }
}
