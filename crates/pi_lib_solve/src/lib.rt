//! What a run of `solve` does to a store, in parts: what a call asks for, where its variables begin, which of them is next, which
//! alternatives that has, and what one of these leaves.
#![tactic(auto)]

mod asking;
mod confining;
mod narrowing;
mod picking;
mod places;
mod seeking;
mod trying;
mod values;

pub use asking::{Asked, ask};
pub use confining::confine;
pub use narrowing::narrow;
pub use picking::pick;
pub use seeking::{begin, better, count_better, plain_words, worth};
pub use trying::next_choice;
