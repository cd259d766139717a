//! Domains: how they are made, cut, met and read.
#![tactic(auto)]

pub use pi_constraints::{
    DomFault, Domain, Domains, MAX_VALUE, Span, contains, cut_above, cut_below, max, meet, min,
    of_list, of_span, remove, size,
};
