//! The filters of reified sums and of `all_distinct`, over lists of domains.
#![tactic(auto)]

pub use pi_prop_filters::{filter_distinct, filter_reified};
