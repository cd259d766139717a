//! Propagation over any store: the constraints that are due stand in a queue, and each is run in turn.
#![tactic(auto)]

mod asks;
mod changes;
mod cuts;
mod due;
mod filtering;
mod held;
mod held_places;
mod leaving;
mod propagation;
mod reading;
mod stand;
mod turn;
mod waking;

pub use changes::changed;
pub use due::Due;
pub use held_places::HeldPlaces;
pub use pi_settling::PropStop;
pub use propagation::{propagate, propagate_from};
pub use waking::wake;
