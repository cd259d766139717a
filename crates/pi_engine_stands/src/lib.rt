//! What the arenas of a run stand for: a configuration of the machine as plain data.
#![tactic(auto)]

pub mod laws;
