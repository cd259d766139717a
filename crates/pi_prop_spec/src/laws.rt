//! Laws of the definitions, each a clause of a function that does nothing.

pub mod decided;
pub mod filters;
pub mod postings;
