//! Plans: what a planner is given, as data; steps, valid plans and exhausted numbers, as definitions with their laws; and the
//! planner's search, by cost, or by rests.
#![tactic(auto)]

mod advance;
mod checks;
mod due;
mod given;
pub mod laws;
mod order;
mod place;
mod planner;
mod search;
mod written;

pub use checks::PlanFault;
pub use given::{GivenState, GivenStates, Successor, Successors};
pub use planner::{PlanStep, Planner};
