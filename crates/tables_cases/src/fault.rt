//! Why a case, or a run of the program, doesn't come to its end.

/// What is wrong. It is told in a line, and the program ends with its status.
#[derive(Clone, Copy)]
pub enum Problem {
    /// The words behind the program's name aren't texts.
    Words,
    /// The case isn't written as those of its subject are: what it lacks.
    Lacks(&'static str),
    Read,
    Write,
    Memory,
}

impl Problem {
    /// The status with which the program ends.
    pub fn status(self) -> u8 {
        match self {
            Problem::Words => 2,
            Problem::Lacks(_) => 3,
            Problem::Read => 7,
            Problem::Write => 8,
            Problem::Memory => 9,
        }
    }

    /// What is told of it.
    pub fn text(self) -> &'static str {
        match self {
            Problem::Words => "usage: NAME FILE ..",
            Problem::Lacks(what) => what,
            Problem::Read => "read fault",
            Problem::Write => "write fault",
            Problem::Memory => "want of memory",
        }
    }
}
