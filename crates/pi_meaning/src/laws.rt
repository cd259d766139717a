//! Laws of the definitions, each a clause of a function that does nothing.

pub mod machine;
pub mod meaning;
pub mod names;
