//! What a reader of lines finds.
ghost use Rattle.std.specs.Prelude.{◌≡◌};
ghost use Rattle.pi_outside.specs.declared.found.LineStop.TheVariants.{Fault, Memory};

use crate::failed::Failed;
use std::alloc::AllocError;

/// What comes next in an input.
#[derive(Drop)]
pub enum Found {
    /// A line, without its line feed.
    Line(Vec<u8>),
    /// What stands behind the last line feed, up to the input's end.
    Last(Vec<u8>),
    /// More bytes than may be read, and no line feed among those that may.
    TooLong,
}

/// Why nothing is found.
#[derive(Clone, Copy)]
pub enum LineStop {
    Fault,
    Memory,
}

impl From<AllocError> for LineStop {
    ghost from_gives = { λ _ e. e ≡ Memory };

    fn from(_e: AllocError) -> LineStop {
        LineStop::Memory
    }
}

impl From<Failed> for LineStop {
    ghost from_gives = { λ _ e. e ≡ Fault };

    fn from(_e: Failed) -> LineStop {
        LineStop::Fault
    }
}
