//! Terms: as trees and as flat vectors, with their order, their variables and their copies.
#![tactic(auto)]

mod args;
pub mod laws;
mod numbers;
mod series;
mod short;
mod term;
mod text;

pub use args::Args;
pub use numbers::Numbers;
pub use series::{BoxedSeries, Series};
pub use term::{Term, TermCell, TermHead};
pub use text::Text;
