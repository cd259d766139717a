//! Settling in the machine: where a goal began, the constraints that are due after it, and their propagation.
#![tactic(auto)]

pub mod laws;
mod propagating;
mod since;
mod since_settled;

pub use propagating::{Settled, settle};
pub use since::{Since, begin, due_since};
pub use since_settled::settle_since;
