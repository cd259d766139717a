//! The machine that runs a goal of the core language over a store, on arenas.
#![tactic(auto)]

mod begin;
pub mod laws;
mod machine;
mod turns;

pub use machine::{Kept, Machine};
pub use pi_meaning::{Budget, Happening, Mode, PlanCall};
