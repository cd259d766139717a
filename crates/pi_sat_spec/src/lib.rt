//! Lemmas over bounds of variables, logs of them, and when a log is right: as definitions, with the law that no solution
//! exists over a right log.
#![tactic(auto)]

mod entry;
pub mod laws;
mod literal;

pub use entry::{SatEntry, SatLog};
pub use literal::{Assignment, Lemma, Literal};
