//! Programs and goals of the core language.
#![tactic(auto)]

mod answer;
mod core_goal;
mod core_program;
mod goal_node;
mod log;

pub use answer::{Answer, NamedTerm, NamedTerms};
pub use core_goal::CoreGoal;
pub use core_program::{
    CoreClause, CoreClauses, CorePred, CorePreds, CoreProgram, CoreQuery, NameSlot, NameSlots,
    Pattern, Patterns, SlotWatch, SlotWatches,
};
pub use goal_node::GoalNode;
pub use log::{CallLog, Entered, EnteredCalls, LogEntry, PlanResult, Work};
