//! Filters of constraints: what each leaves of the domains at its places, as definitions, and their laws.
#![tactic(auto)]

pub mod laws;
