//! What a planner is given: what the bodies of a planner call come to at a state.
use pi_terms::{Series, Term};

/// An answer of `action`: the state that follows, the action, and its cost.
#[derive(Drop)]
pub struct Successor {
    pub state: Term,
    pub action: Term,
    pub cost: Term,
}

/// Answers of `action` at one state, in order.
pub type Successors = Series<Successor>;

/// What was given for a state: what was left of the limit when it was asked for, whether `final` has an answer, and the
/// answers of `action`.
pub struct GivenState {
    pub state: Term,
    pub rest: i128,
    pub is_final: bool,
    pub successors: Successors,
}

// By hand, so that letting one go is a call and not its parts at each way out.
impl Drop for GivenState {
    fn drop(self) {
        let GivenState {
            state: _,
            rest: _,
            is_final: _,
            successors: _,
        } = self;
    }
}

/// All that a planner was given, in order.
pub type GivenStates = Series<GivenState>;
