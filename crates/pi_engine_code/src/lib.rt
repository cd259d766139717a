//! A program and a goal in flat tables, with each call resolved.
#![tactic(auto)]

mod build;
mod callables;
mod code;
mod fact_keys;
mod key;

pub use build::build_code;
pub use callables::{Callable, Callables};
pub use code::{Code, HeadTest, Node, Operand, Part, Predicate, Rule, Step};
pub use fact_keys::FactKeys;
pub use key::{FactPlace, FactValue};
