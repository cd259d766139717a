//! Slots of a clause or a query, and terms and patterns over them.
#![tactic(auto)]

mod flat;
mod letters;
mod patterns;
mod readings;
mod slots;
mod steps;
mod terms;
mod views;

pub use flat::{are_flat, is_below, is_flat};
pub use patterns::{slot_pattern, slot_patterns};
pub use readings::{Reading, Readings};
pub use slots::Slots;
pub use steps::both;
pub use terms::{list_onto, slot_term};
