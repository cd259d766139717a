//! The built-in predicates and functions, and which of them a name is: tests of terms, their names and numbers of arguments,
//! and arithmetic on the terms of a store.
#![tactic(auto)]

mod building;
mod closed;
mod collection;
mod equality;
mod functions;
mod joining;
mod kinds;
mod lookup;
mod naming;
mod operations;
mod ordering;
mod parts;
mod predicates;
mod reading;
mod relations;
mod totals;
mod walk;

pub use building::{put_array, put_list};
pub use closed::is_closed;
pub use collection::collection_items;
pub use equality::{differ, make_equal};
pub use functions::{Function, FunctionOfCollection, FunctionOfOne, FunctionOfTwo};
pub use joining::{append, delete_all, in_order, reverse, to_array, to_list, zip};
pub use kinds::{TermKind, is_of_kind};
pub use lookup::{function_named, predicate_named, predicate_names};
pub use naming::{arity_of, name_of};
pub use operations::{evaluate_one, evaluate_two, greatest, least, same_integer};
pub use ordering::{TermRelation, are_ordered};
pub use predicates::{Predicate, PredicateOfNone, PredicateOfOne, PredicateOfTwo};
pub use reading::{first, head, item_at, last, length, tail};
pub use relations::{Relation, are_related};
pub use totals::{product, sum};
pub use walk::list_items;
