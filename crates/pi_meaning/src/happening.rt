//! What a machine is given, and what it answers.
use pi_core::{Answer, Work};
use pi_terms::{Term, Text};

/// Whether a machine runs a query, whose Ticks are counted against its steps, or the body of a planner call, whose Ticks are
/// work, with so much of the call's limit left: a number from 0.
#[derive(Clone, Copy)]
pub enum Mode {
    Top,
    Inner(i128),
}

/// What a run may still use: Ticks up to `steps`, and work of all kinds up to `limit`.
#[derive(Clone, Copy)]
pub struct Budget {
    pub ticks: u64,
    pub steps: u64,
    pub work: Work,
    pub limit: u64,
}

/// A planner call that a machine waits for: whether a best plan is wanted, the state to start from, the limit.
#[derive(Drop)]
pub struct PlanCall {
    pub best: bool,
    pub start: Term,
    pub limit: i128,
}

/// What comes next in a run. `NeedPlan` doesn't come before there is a planner.
#[derive(Drop)]
pub enum Happening {
    Answer(Answer),
    Out(Text),
    NeedPlan(PlanCall),
    Done,
    Raised(Term),
    StepsSpent,
    WorkSpent,
    Memory,
}
