//! Laws of the definitions, each a clause of a function that does nothing.
pub mod language;
pub mod paths;
pub mod runs;
pub mod stages;
