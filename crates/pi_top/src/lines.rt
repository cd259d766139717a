//! The lines that are written apart from answers and faults of texts.

/// The usage line.
pub const USAGE: &str =
    "usage: picatq [--answers N] [--steps N] [--work N] [--mode query|run|session|print|demo] FILE [GOAL]\n";

/// What is written where memory is wanted.
pub const MEMORY: &str = "want of memory\n";

/// What is written where there is no query to ask for its next answer.
pub const NO_QUERY: &str = "no query\n";

/// What is written where a line has more bytes than it may have.
pub const LINE_TOO_LONG: &str = "goal: TooLong\n";

/// What is written where the input has more bytes than it may have.
pub const INPUT_TOO_LONG: &str = "input too long\n";
