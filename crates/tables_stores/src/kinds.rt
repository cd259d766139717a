//! The kinds of stores that cases are answered over.

use pi_region::Words;
use pi_store::RawStore;
use std::alloc::Global;

/// A raw store in a region of its own.
pub fn raw_store(alloc: Global) -> RawStore {
    RawStore::new(alloc, Words::new(alloc))
}
