//! A store over raw words: its names, terms, variables, bindings and marks.
#![tactic(auto)]

mod bind;
mod domains;
mod heads;
mod kept_states;
pub mod laws;
mod lists;
mod mark;
mod named;
mod post;
mod posted;
mod read;
mod refs;
mod since;
mod state_store;
mod store;
mod stored;
mod waiting;
mod walk;

pub use mark::{KeptStore, RawMark};
pub use store::RawStore;
