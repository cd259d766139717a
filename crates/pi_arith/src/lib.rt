//! Integers of 128 bits: the value of an operation, or its fault.
#![tactic(auto)]

pub use pi_effects::{ArithFault, Op, evaluate};
