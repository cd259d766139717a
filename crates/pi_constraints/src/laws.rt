//! Laws of the definitions, each a clause of a function that does nothing.
//! Laws of the definitions, each a clause of a function that does nothing, and of stores.

pub mod domains;
pub mod matching;
pub mod states;
pub mod stores;
pub mod unification;
pub mod value;
