use pi_terms::{Series, Term};

/// Work of a query: Ticks in planner evaluations, runs of propagators, and planner states expanded.
#[derive(Clone, Copy)]
pub struct Work {
    pub goals: u64,
    pub runs: u64,
    pub expansions: u64,
}

impl Work {
    /// No work.
    pub const NONE: Work = Work {
        goals: 0,
        runs: 0,
        expansions: 0,
    };
}

/// A planner call that began to be answered: whether a best plan is wanted, the state to start from, the limit.
#[derive(Drop)]
pub struct Entered {
    pub best: bool,
    pub start: Term,
    pub limit: i128,
}

/// Planner calls that began to be answered, in order.
pub type EnteredCalls = Series<Entered>;

/// What a planner call answers.
#[derive(Drop)]
pub enum PlanResult {
    Found { plan: Term, cost: i128 },
    NoPlan,
}

/// A planner call that is done: answered, or left by an exception.
#[derive(Drop)]
pub enum LogEntry {
    Planned {
        best: bool,
        start: Term,
        limit: i128,
        result: PlanResult,
    },
    RaisedPlan {
        best: bool,
        start: Term,
        limit: i128,
        ball: Term,
    },
}

/// Planner calls that are done, in the order of their completion.
pub type CallLog = Series<LogEntry>;
