//! The facts of a predicate and the arguments of a call: which facts unify with them.
#![tactic(auto)]

mod called;
mod heads;
mod keyed;
mod modes;
mod roots;
mod trying;
mod unknown;

pub use called::take_called;
pub use heads::unify_fact;
pub use keyed::Facts;
pub use modes::fits_call;
pub use trying::{next_unifying, unifies};
pub use unknown::{unknown_ball, unknown_name};
