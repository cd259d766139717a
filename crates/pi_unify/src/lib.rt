//! Matching, unification, the standard order, copies and placing of terms in a store.
#![tactic(auto)]

mod ahead;
mod building;
mod copying;
mod domains;
mod matching;
mod numbers;
mod occurs;
mod order;
mod placing;
mod roots;
mod unifier;
mod variables;

pub use copying::copy_term;
pub use domains::domains_in;
pub use matching::{Slots, match_head};
pub use order::compare;
pub use placing::place;
pub use unifier::unify;
