//! Where a part of a program's text stands: its first and its last line.
#![tactic(auto)]

pub mod laws;
mod part_lines;
mod places;

pub use part_lines::{NoLines, PartLines, lines_of_part};
