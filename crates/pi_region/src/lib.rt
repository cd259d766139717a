//! Words that can be taken back to what they were: a region that grows, tables beside it, and in the region a trail of
//! what changed.
//! Regions of words: one growable block over memory that the crate asks of the allocator itself, and
//! a pool that keeps the blocks of regions that are given back.
#![tactic(auto)]

mod block;
mod changes;
mod entry;
mod history;
pub mod laws;
mod pool;
mod raw;
mod trailed;
mod word_list;
mod words;

pub use changes::Changes;
pub use entry::{Table, data, value};
pub use pool::Pool;
pub use trailed::Trailed;
pub use word_list::WordList;
pub use words::Words;
