//! Constraints as blocks of a region.
mod head;
mod items;
mod read;
mod table;
mod terms;
mod write;

pub use read::read_constraint;
pub use table::numbered_constraint;
pub use write::write_constraint;
