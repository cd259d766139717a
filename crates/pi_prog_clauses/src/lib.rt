//! Clauses: what each is and what it may not be by itself, the names that clauses define and call, and what is wrong with parts together.
#![tactic(auto)]

mod clause;
mod goal_names;
mod judging;
mod names;
mod nodes;
mod parts;
mod prog_fault;
mod program;
mod restrictions;

pub use clause::{FormedClause, bare_clause, ruled_clause};
pub use goal_names::first_unknown_of_goal;
pub use judging::first_faults::UnknownCall;
pub use judging::{judge_parts, unknown_name};
pub use names::calls::Called;
pub use parts::{PartReading, WrittenPart};
pub use prog_fault::ProgFault;
pub use program::program_of;
pub use restrictions::bad_nodes::goal_has_bad_nodes;
pub use restrictions::has_bad_form;
