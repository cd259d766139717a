//! Goals and helpers of loops, of parts that are lowered.
#![tactic(auto)]

mod clauses;
mod comprehensions;
mod elements;
mod ends;
mod entries;
mod iterators;
mod joined;
mod loops;
mod ranges;
mod terms;
mod turns;
mod walks;

pub use comprehensions::{begun, gathered, push_adding};
pub use elements::{Element, matching, turn_helper};
pub use entries::{push_entered, push_loop, push_started};
pub use iterators::push_own;
pub use joined::{either_of, in_turn, one, push_fail, push_filling};
pub use loops::{Ending, Loop, loop_slots};
pub use ranges::{Bounds, push_through, range_helper, step_helper};
pub use turns::{do_helper, only_turn_helper, while_helper};
pub use walks::{element_helper, push_over};
