//! Faults of built-ins, and why a built-in has no result.
ghost use Rattle.std.specs.Prelude.{◌≡◌};
ghost use Rattle.pi_effects.specs.Reads.{stop_of};
ghost use Rattle.pi_effects.specs.declared.fault.Stop.TheVariants.{Raised, Memory};
ghost use Rattle.pi_effects.specs.declared.fault.Fault.TheVariants.{Arithmetic};

use crate::arith_fault::ArithFault;
use pi_constraints::{ReadStop, Ref};
use std::alloc::{AllocError, AllocFailed};

/// What an argument has to be. A User's Guide to Picat, 'Exceptions'; the kinds are own.
#[derive(Clone, Copy)]
pub enum Kind {
    Integer,
    ProperList,
    /// A proper list or an array.
    Collection,
    /// An atom or a compound.
    Callable,
    /// An array of two items.
    Pair,
    /// A variable with a domain or an integer; or what values of domains are given by.
    Domain,
}

/// What a built-in raises: a copy of a term is made of it only where it is needed. A `Ref` is that of the term which is told.
/// A User's Guide to Picat, 'Exceptions'; which faults there are is own.
#[derive(Clone, Copy)]
pub enum Fault {
    /// The argument isn't of this kind: `type_error(Kind,T)`.
    WrongKind(Kind, Ref),
    /// The index isn't there, or the size is none: `bad_index(T)`.
    BadIndex(Ref),
    /// There is no first item: `bad_index(1)`.
    NoFirst,
    /// The text is no format, or doesn't fit its arguments: `bad_format(T)`.
    BadFormat(Ref),
    /// The step of a range is 0: `bad_range`.
    BadRange,
    /// There would be more than 16,777,216 items: `range_too_long`.
    RangeTooLong,
    /// The term has more than 16,777,216 cells: `term_too_large`.
    TermTooLarge,
    /// An operation on integers has no value.
    Arithmetic(ArithFault),
    /// The term can't stand where it does in a constraint: `not_a_constraint(T)`.
    NotAConstraint(Ref),
    /// The term is no option of `solve`, or a second one of its group: `bad_option(T)`.
    BadOption(Ref),
    /// A constraint is past a limit: `constraint_too_large`.
    ConstraintTooLarge,
    /// A value that no domain can have: `domain_too_wide`.
    DomainTooWide,
    /// `throw`: the term itself.
    Thrown(Ref),
}

/// Why a built-in has no result.
#[derive(Clone, Copy)]
pub enum Stop {
    Raised(Fault),
    /// Memory ran out.
    Memory,
}

impl From<AllocError> for Stop {
    ghost from_gives = { λ _ e. e ≡ Memory };

    fn from(_error: AllocError) -> Stop {
        Stop::Memory
    }
}

impl<T: Drop> From<AllocFailed<T>> for Stop {
    ghost from_gives = { λ _ e. e ≡ Memory };

    fn from(_failed: AllocFailed<T>) -> Stop {
        Stop::Memory
    }
}

impl From<ArithFault> for Stop {
    ghost from_gives = { λ fault e. e ≡ Raised (Arithmetic fault) };

    fn from(fault: ArithFault) -> Stop {
        Stop::Raised(Fault::Arithmetic(fault))
    }
}

impl From<ReadStop> for Stop {
    ghost from_gives = { λ stop e. e ≡ stop_of stop };

    fn from(stop: ReadStop) -> Stop {
        match stop {
            ReadStop::TooLarge => Stop::Raised(Fault::TermTooLarge),
            ReadStop::Memory => Stop::Memory,
        }
    }
}
