//! Calls of goals of constraints and of functions of domains, over any store whose domains are read where they stand.
#![tactic(auto)]

mod defaults;
mod expressions;
mod flattening;
mod functions;
mod goals;
mod keeping;
mod kinds;
mod lookup;
mod others;
mod posting;
mod shapes;
mod sides;
mod values;
mod within;

pub use defaults::default_domain;
pub use expressions::{number_of, post_operand, post_relation};
pub use flattening::leaves;
pub use functions::{DomainFunction, call_domain_function};
pub use goals::call_constraint;
pub use keeping::{bind_to_integer, leave_values};
pub use kinds::{ConstraintGoal, GoalOfOne, GoalOfTwo};
pub use lookup::{constraint_named, domain_function_named};
pub use posting::confine_at;
