//! What a call of picatq answers.
use crate::runs::Queries;
use pi_core::{CallLog, EnteredCalls};

/// What a run of picatq comes to, beside the bytes that it wrote.
#[derive(Drop)]
pub struct Outcome {
    /// The status with which the program ends: see docs/CAUSES.md.
    pub status: u8,
    pub queries: Queries,
    /// The planner calls that were done.
    pub log: CallLog,
    /// The planner calls that were begun.
    pub entered: EnteredCalls,
}
