//! Laws of the definitions, each a clause of a function that does nothing.
pub mod plans;
pub mod rests;
pub mod work;
