//! Lists of numbers in a region.
mod node;
mod walk;

pub use node::{Node, add_node};
pub use walk::listed;
