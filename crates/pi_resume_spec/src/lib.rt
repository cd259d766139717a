//! Paths of answers, and runs that are resumed behind an answer, as definitions with their laws: of goals however they are put
//! together, and of the core language.
#![tactic(auto)]

pub mod laws;
