//! The words of a command line, and what they ask.
#![tactic(auto)]

mod asked;
mod command;
mod numbers;
mod run_mode;
mod settings;
mod words;

pub use asked::Options;
pub use run_mode::RunMode;
pub use words::{WordsFault, read_words};
