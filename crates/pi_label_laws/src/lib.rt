//! Labelling gives exactly the solutions: which states may be labelled, and what the answers of a labelling are, as definitions with their laws.
#![tactic(auto)]

pub mod laws;
