//! The goals that were run.
use pi_core::Work;
use pi_terms::Series;

/// A goal that was run: the Ticks and the work that it took, and how many planner calls were done and begun before it.
#[derive(Clone, Copy)]
pub struct QueryRun {
    pub ticks: u64,
    pub work: Work,
    pub known: u64,
    pub first: u64,
}

/// The goals that were run, in order.
pub type Queries = Series<QueryRun>;
