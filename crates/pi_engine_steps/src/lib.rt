//! The steps of a run over tables and arenas.
#![tactic(auto)]

mod answers;
mod built_ins;
mod calls;
mod choices;
mod constraints;
mod facts;
mod goals;
mod heads;
mod labels;
mod levels;
mod lists;
mod raises;
mod rules;
mod search;
mod search_ends;
mod settling;
mod solve;
mod terms;
mod ticks;
mod values;

pub use answers::answer;
pub use choices::one_goal;
pub use goals::run_goal;
pub use levels::{answer_level, fail};
pub use raises::unwind;
