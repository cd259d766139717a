//! The integer arithmetic of Picat; what built-ins do, as values; what they raise, before it is a term, and the terms of it.
#![tactic(auto)]

mod arguments;
mod arith_fault;
mod ball;
mod bits;
mod evaluation;
mod fault;
pub mod laws;
mod operation;
mod power;
mod quotients;
mod shifts;
mod sums;

pub use arguments::integer;
pub use arith_fault::ArithFault;
pub use ball::ball_of;
pub use evaluation::evaluate;
pub use fault::{Fault, Kind, Stop};
pub use operation::Op;
