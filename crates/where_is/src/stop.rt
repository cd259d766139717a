//! Why no lines are told.

use pi_where::NoLines;
use std::alloc::AllocError;
use std::io;

/// Why no lines are told.
#[derive(Clone, Copy)]
pub(crate) enum Stop {
    /// The file's text has no part of this number.
    NoPart,
    /// The words aren't a number and a file.
    Words,
    /// The file's text has no tokens, and so no parts.
    NoTokens,
    /// The file can't be read.
    Unread,
    /// Memory ran out.
    Memory,
}

impl Stop {
    /// The line that says so.
    pub(crate) fn line(self) -> &'static str {
        match self {
            Stop::NoPart => "no such part",
            Stop::Words => "usage: where_is PART FILE",
            Stop::NoTokens => "no tokens",
            Stop::Unread => "read fault",
            Stop::Memory => "want of memory",
        }
    }

    /// The status that the program ends with.
    pub(crate) fn status(self) -> u8 {
        match self {
            Stop::NoPart => 1,
            Stop::Words => 2,
            Stop::NoTokens => 3,
            Stop::Unread => 7,
            Stop::Memory => 9,
        }
    }
}

impl From<AllocError> for Stop {
    fn from(_error: AllocError) -> Stop {
        Stop::Memory
    }
}

impl From<io::Error> for Stop {
    fn from(error: io::Error) -> Stop {
        match error.kind() {
            io::ErrorKind::OutOfMemory => Stop::Memory,
            _ => Stop::Unread,
        }
    }
}

impl From<NoLines> for Stop {
    fn from(none: NoLines) -> Stop {
        match none {
            NoLines::NoPart => Stop::NoPart,
            NoLines::NoTokens => Stop::NoTokens,
            NoLines::Memory => Stop::Memory,
        }
    }
}
