//! The modes of a run.
ghost use Rattle.std.specs.Prelude.{◌≡◌};
ghost use Rattle.pi_top_words.specs.Words as spec;

use crate::numbers::places_by;

/// What picatq does with a program.
#[derive(Clone, Copy)]
pub enum RunMode {
    /// Asks a goal.
    Query,
    /// Asks the goal `main`.
    Run,
    /// Asks the goals that the input has.
    Session,
    /// Writes the program.
    Print,
    /// Runs a program that is made from a number.
    Demo,
}

impl RunMode {
    /// The mode with this name.
    pub(crate) fn named(name: &str) -> Option<RunMode>
        ensures { result ≡ spec.mode_named name.now }
    {
        match name {
            "query" => Some(RunMode::Query),
            "run" => Some(RunMode::Run),
            "session" => Some(RunMode::Session),
            "print" => Some(RunMode::Print),
            "demo" => Some(RunMode::Demo),
            _ => None,
        }
    }

    /// Whether a word may stand in place of FILE: in the mode `demo` it is a number.
    pub(crate) fn takes_file(self, file: &str) -> bool
        ensures { result ≡ spec.takes_file self file.now }
    {
        match self {
            RunMode::Demo => places_by(file).is_some(),
            _ => true,
        }
    }

    /// Whether GOAL stands there where it is wanted, and nowhere else.
    pub(crate) fn takes_goal(self, has_goal: bool) -> bool
        ensures { result ≡ spec.takes_goal self has_goal }
    {
        match self {
            RunMode::Query => has_goal,
            _ => !has_goal,
        }
    }
}
