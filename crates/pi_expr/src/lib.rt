//! Expressions.
#![tactic(auto)]

mod arguments;
mod blocks;
mod close;
mod crowding;
pub mod enter;
mod fault;
pub mod go_on;
mod laws;
mod made;
mod reader;
pub mod resume;

pub use crowding::is_crowded;
pub use fault::ExpFault;
pub use laws::steps_follow_the_grammar;
pub use reader::{read_exp, read_uncrowded};
