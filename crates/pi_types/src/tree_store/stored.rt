//! The copying store as one whose domains are read where they stand.
use crate::tree_store::TreeStore;
use pi_constraints::{Span, StoredDomains};

impl StoredDomains for TreeStore {
    fn span_count(&self, n: u64) -> usize {
        self.present.span_count(n)
    }

    fn span(&self, n: u64, k: usize) -> Span {
        self.present.span(n, k)
    }
}
