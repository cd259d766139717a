//! Domains as blocks of a region.
mod check;
mod read;
mod standing;
mod write;

pub use read::read_domain;
pub use standing::{span, span_count};
pub use write::write_domain;
