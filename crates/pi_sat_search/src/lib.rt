//! The search for values that learns lemmas: each lemma is tested before it is kept, and so are the values that are answered.
#![tactic(auto)]

mod advance;
mod answers;
mod append;
mod asking;
mod building;
mod clauses;
mod course;
mod cuts;
mod decisions;
mod entries;
mod fault;
mod filtered;
mod given;
mod hints;
mod learning;
mod leaves;
mod lemmas;
mod limits;
mod lookup;
mod nodes;
mod picks;
mod reasons;
mod search;
mod solutions;
mod stand;
mod steps;
mod sure;
mod trail;

pub use fault::SearchFault;
pub use search::SatSearch;
pub use steps::SatStep;
