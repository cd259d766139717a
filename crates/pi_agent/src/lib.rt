//! The events of a goal, and the activations of agents that they make.
#![tactic(auto)]

mod losses;
mod variable;
mod waking;

pub use variable::events_of;
pub use waking::activations;
