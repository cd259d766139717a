//! Why a propagation stops before its end.
ghost use Rattle.std.specs.Prelude.{◌≡◌};
ghost use Rattle.pi_settling.specs.declared.stop.PropStop.TheVariants.{Memory};

use std::alloc::AllocError;

/// A propagation stopped: no run was left in the budget while a constraint was due, or memory was wanted.
#[derive(Clone, Copy)]
pub enum PropStop {
    WorkSpent,
    Memory,
}

impl From<AllocError> for PropStop {
    ghost from_gives = { λ _ e. e ≡ Memory };

    fn from(_error: AllocError) -> PropStop {
        PropStop::Memory
    }
}
