//! What a run keeps beside its store: frames, blocks of slots, entries, values that are collected.
#![tactic(auto)]

mod arenas;
mod blocks;
mod frames;
mod run;

pub use arenas::{Alternatives, Arenas, Back, Entry, Kind, Search, Strict, behind, behind_level};
pub use blocks::{Blocks, BlocksMark, Written};
pub use frames::{Call, Frames, Point};
pub use run::{End, Now, Run, Settling, Telling};
