//! Variables with their domains.
use crate::domain::Domain;
use pi_terms::Series;

/// A variable, by its number, and its domain.
#[derive(Drop)]
pub struct VarDomain {
    pub var: u64,
    pub domain: Domain,
}

/// Variables with their domains, each variable once: by their first occurrences in the answer's values from the left, as
/// `_1`, `_2` are printed.
pub type VarDomains = Series<VarDomain>;
