//! Why tokens have no expression.
ghost use Rattle.std.specs.Prelude.{◌≡◌};
ghost use Rattle.pi_expr.specs.declared.fault.ExpFault.TheVariants.{Memory};

use std::alloc::AllocError;

/// Why tokens have no expression.
#[derive(Clone, Copy)]
pub enum ExpFault {
    /// The tokens aren't crowded, and they are no expression.
    NoExpression,
    /// The tokens are crowded, or are an expression of more than 1,000 levels.
    TooDeep,
    /// Memory ran out.
    Memory,
}

impl From<AllocError> for ExpFault {
    ghost from_gives = { λ _ e. e ≡ Memory };

    fn from(_error: AllocError) -> ExpFault {
        ExpFault::Memory
    }
}
