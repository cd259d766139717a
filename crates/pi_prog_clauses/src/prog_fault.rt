//! Why tokens are no program, or no goal.
ghost use Rattle.std.specs.Prelude.{◌≡◌};
ghost use Rattle.pi_prog_clauses.specs.declared.prog_fault.ProgFault.TheVariants.{Memory};

use pi_terms::Text;
use std::alloc::{AllocError, AllocFailed};

/// The first fault of a program, or of a goal, which is one part. Parts are counted from 1. A User's Guide to Picat,
/// 'Predicates and Functions'; the limits and the order of faults are own.
pub enum ProgFault {
    /// The part is no clause or goal, or one that may not stand there.
    BadClause { number: u64 },
    /// The part has more than 1,000 levels or open brackets, or more than 1,000 words that open a block.
    TooDeep { number: u64 },
    /// The part begins with a declaration of no form, or with one that may not stand there.
    BadDeclaration { number: u64 },
    /// The part's variables have more than 4,096 different names.
    TooManyVariables { number: u64 },
    /// The part calls what is neither built in nor defined, as it is called.
    UnknownName { name: Text, arity: u32, number: u64 },
    /// Clauses of the predicate or function stand apart.
    Scattered { name: Text, arity: u32 },
    /// Memory ran out, or the name that would be told has 2^32 arguments or more.
    Memory,
}

// By hand, so that letting one go is a call and not its parts at each way out.
impl Drop for ProgFault {
    fn drop(self) {
        match self {
            ProgFault::BadClause { number: _ } => {}
            ProgFault::TooDeep { number: _ } => {}
            ProgFault::BadDeclaration { number: _ } => {}
            ProgFault::TooManyVariables { number: _ } => {}
            ProgFault::UnknownName {
                name: _,
                arity: _,
                number: _,
            } => {}
            ProgFault::Scattered { name: _, arity: _ } => {}
            ProgFault::Memory => {}
        }
    }
}

impl From<AllocError> for ProgFault {
    ghost from_gives = { λ _ e. e ≡ Memory };

    fn from(_error: AllocError) -> ProgFault {
        ProgFault::Memory
    }
}

impl<T: Drop> From<AllocFailed<T>> for ProgFault {
    ghost from_gives = { λ _ e. e ≡ Memory };

    fn from(_failed: AllocFailed<T>) -> ProgFault {
        ProgFault::Memory
    }
}
