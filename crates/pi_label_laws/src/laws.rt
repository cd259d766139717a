//! Laws of the definitions, each a clause of a function that does nothing.
pub mod labelling;
