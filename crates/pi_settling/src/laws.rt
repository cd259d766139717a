//! Laws of the definitions, each a clause of a function that does nothing.
pub mod agents;
pub mod calm;
pub mod domains;
pub mod labelling;
pub mod names;
pub mod runs;
pub mod settle;
pub mod settling;
