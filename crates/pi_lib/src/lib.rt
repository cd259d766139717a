//! What calls of built-in predicates and functions come to, over any store: those that sort lists, that make variables, ranges
//! and copies, and those of texts among them.
#![tactic(auto)]

mod arguments;
mod characters;
mod collections;
mod copies;
mod extremes;
mod formats;
mod functions;
mod grids;
mod lists;
mod merging;
mod pairs;
mod placed;
mod predicates;
mod ranges;
mod runs;
mod signs;
mod sizes;
mod sorting;
mod texts;
mod variables;

pub use arguments::{one, three, two};
pub use functions::call_function;
pub use pi_syntax::{BuiltinKind, is_builtin, prelude};
pub use predicates::{Outcome, call_predicate};
pub use ranges::{count_by, value_after};
pub use runs::{LibStep, LibValue, run_function, run_predicate};
