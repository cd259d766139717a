//! Settling: the stable domains of a state, the load and the events of a goal, and the agents that they wake; what an
//! activation does, and how those that wait are run; runs of
//! constraints that are due; labelling; and what goals of constraints do to a state. As definitions, with their laws.
#![tactic(auto)]

pub mod laws;
mod stop;

pub use stop::PropStop;
