//! What the interpreter asks of the outside: files, a source of input and a sink for output.
//!
//! Each trait tells two things in its contracts: the bytes, where they are known, and a count of faults.
#![tactic(auto)]

mod copy;
mod failed;
mod files;
mod found;
mod keeping;
pub mod laws;
mod memory_files;
mod memory_sink;
mod memory_source;
mod named;
mod reader;
mod real;
mod request;
mod schedule;
mod sink;
mod source;
mod supply;
mod sure_files;
mod sure_sink;
mod sure_source;

pub use failed::Failed;
pub use files::Files;
pub use found::{Found, LineStop};
pub use memory_files::MemoryFiles;
pub use memory_sink::MemorySink;
pub use memory_source::MemorySource;
pub use reader::LineReader;
pub use real::{RealFiles, RealSink, RealSource};
pub use request::{KEPT_LINE, MAX_LINE, Request, request_of};
pub use sink::Sink;
pub use source::Source;
pub use sure_files::SureFiles;
pub use sure_sink::SureSink;
pub use sure_source::SureSource;
