//! That what programs and goals are lowered to keeps their meaning: laws, and no code that runs.
#![tactic(auto)]

pub mod laws;
