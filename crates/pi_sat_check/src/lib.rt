//! Whether a log of lemmas is right over domains and constraints. It shares no code with the search that makes logs, but domains
//! and filters.
#![tactic(auto)]

mod checking;
mod cuts;
mod entries;
mod hints;
mod lemmas;
mod lookup;
mod may;
mod refuting;

pub use checking::check;
pub use may::may_search;
