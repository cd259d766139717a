//! What a goal of constraints posts, read from a store without recursion: its operands, relations and Boolean expressions.
#![tactic(auto)]

mod called;
mod expressions;
mod goals;
mod items;
mod nodes;
mod operands;
mod reading;
mod relations;
mod truths;

pub use called::{PostingGoal, PostingStop, read_posting};
pub use expressions::{Expression, read_expression};
pub use reading::{ConFault, read_constraint};
pub use relations::Comparison;
pub use truths::Connective;
