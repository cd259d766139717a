//! Traces: what happens in a run, in order, and how it ends. Definitions and their laws, with no code that runs.
#![tactic(auto)]

pub mod laws;
