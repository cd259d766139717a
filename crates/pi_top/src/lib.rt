//! The top call of picatq: from the words of a command line to the bytes that are written and the status.
//! A query: a program's text and a goal's are judged, the goal is asked, and its answers and its end are written as they come.
#![tactic(auto)]

pub mod asking;
mod built;
mod demo;
pub mod fault_lines;
pub mod files;
pub mod handed;
pub mod judgement;
pub mod laws;
mod lines;
pub mod manner;
mod outcome;
pub mod present;
mod printing;
pub mod query;
pub mod runs;
pub mod session;
pub mod session_file;
pub mod starting;
mod top;

pub use built::{unbuilt, unbuilt_goal};
pub use demo::demo_text;
pub use outcome::Outcome;
pub use pi_top_words::{Options, RunMode, WordsFault, read_words};
pub use runs::{Queries, QueryRun};
pub use top::{picatq, picatq_limited};
