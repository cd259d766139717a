//! The store over raw words as one whose domains are read where they stand.
use crate::store::RawStore;
use pi_constraints::{Span, StoredDomains};

impl StoredDomains for RawStore {
    fn span_count(&self, n: u64) -> usize {
        self.span_count(n)
    }

    fn span(&self, n: u64, k: usize) -> Span {
        self.span(n, k)
    }
}
