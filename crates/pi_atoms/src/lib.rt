//! Names with numbers: each name once, with the number of its first use.
#![tactic(auto)]

mod atoms;

pub use atoms::Atoms;
