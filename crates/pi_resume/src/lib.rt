//! Paths of answers as texts, and a guide that follows one while a run makes its choices.
#![tactic(auto)]

mod fault;
mod guide;
mod reader;
mod writer;

pub use fault::PathFault;
pub use guide::Guide;
pub use reader::read_path;
pub use writer::path_text;

/// The choices on the way to an answer, each by its number, in the order in which they are made.
pub type Path = pi_terms::Series<u64>;
