//! Why a text has no tokens.
ghost use Rattle.std.specs.Prelude.{◌≡◌};
ghost use Rattle.pi_lex.specs.declared.fault.LexFault.TheVariants.{Memory};

use std::alloc::AllocError;

/// Why a text has no tokens. Among faults that stand together, the earlier one of this list is answered, and of
/// `BadToken` and `WideInteger` the first in the text. (Own.)
#[derive(Clone, Copy)]
pub enum LexFault {
    /// The text has more than 16,777,216 bytes.
    TooLong,
    /// The text isn't UTF-8: the first byte of the first bad sequence, counted from 0.
    NotUtf8 { at: usize },
    /// No token stands where one must, at this line, counted from 1: a character that begins none, a quote or a
    /// comment that isn't closed, a bad escape, a letter or `_` right behind an integer.
    BadToken { line: u64 },
    /// An integer past 2^127 - 1 stands on this line, counted from 1.
    WideInteger { line: u64 },
    /// Memory ran out.
    Memory,
}

impl From<AllocError> for LexFault {
    ghost from_gives = { λ _ e. e ≡ Memory };

    fn from(_error: AllocError) -> LexFault {
        LexFault::Memory
    }
}
