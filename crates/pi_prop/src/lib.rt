//! Constraints: what a goal posts, read from a store, and the filter of a constraint over a list of domains.
#![tactic(auto)]

pub use pi_prop_filters::filter;
pub use pi_prop_made::Posting;
pub use pi_prop_read::{ConFault, read_constraint};
