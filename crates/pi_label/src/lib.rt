//! The choices of labelling: which options a call has, which place is labelled next, and which alternatives that has.
#![tactic(auto)]

mod alternatives;
mod fault;
pub mod laws;
mod named;
mod options;
mod picking;
mod reading;
mod words;

pub use alternatives::{Choice, choices, first_choice, lower_half, upper_half};
pub use fault::OptFault;
pub use named::is_solve;
pub use options::{Objective, Options, ValueWord, VariableWord};
pub use picking::pick;
pub use reading::read_options;
