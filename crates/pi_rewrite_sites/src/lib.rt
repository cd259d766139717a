//! Where expressions stand in the text of their clause: names before them, and helpers of loops.
#![tactic(auto)]

mod assigned;
mod counts;
mod names;
mod naming;
mod numbers;
mod places;
mod site;
mod units;

pub use assigned::push_assigned;
pub use counts::{helpers_in, helpers_in_all, helpers_in_branches, helpers_in_units};
pub use names::{is_among, kept_names, put_behind, those};
pub use naming::Naming;
pub use numbers::together;
pub use places::{push_names, push_names_of_all, push_names_of_branches};
pub use site::Site;
pub use units::{begins_with_iterator, iterated, push_patterns};
