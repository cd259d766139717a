//! Plans: the bodies of planner calls, steps, valid plans, exhausted numbers and right entries of a log; and that programs that don't
//! ask for what is left of a planner's limit mean the same whatever is left. As definitions, with their laws.
#![tactic(auto)]

pub mod laws;
