//! What programs mean: the trace of a goal, over slots and over names, and its run; and the goals by which `call` runs what a term names.
//! The machine as plain data: configurations, steps, weights, runs, and their laws.
//! What every program of the rule language means, over its names.
#![tactic(auto)]

mod happening;
pub mod laws;
mod named_goals;

pub use happening::{Budget, Happening, Mode, PlanCall};
pub use named_goals::{goal_by_name, is_call};
