//! Boolean expressions of constraints, read from a store without recursion: each is given a truth.
mod frames;
mod joined;
mod nodes;
mod read;
mod sums;
mod turns;

pub use nodes::{Connective, TruthNode, truth_node_at};
pub use read::{post_so, read_joined, read_negation, read_truth};
