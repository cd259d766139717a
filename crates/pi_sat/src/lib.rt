//! Lemmas over bounds of variables, logs of them, whether a log is right, and the search that learns them.
#![tactic(auto)]

pub use pi_sat_check::{check, may_search};
pub use pi_sat_search::{SatSearch, SatStep, SearchFault};
pub use pi_sat_spec::{Assignment, Lemma, Literal, SatEntry, SatLog};
