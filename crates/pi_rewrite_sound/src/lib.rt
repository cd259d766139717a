//! What is lowered is sound, what is built doesn't ask what later stages of the language give, and what a text without a fault
//! has: laws, and no code that runs.
#![tactic(auto)]

mod forms;
mod goals;
pub mod laws;
mod names;
mod parts;
mod patterns;
mod terms;

pub use goals::is_built_goal;
pub use parts::unbuilt;
