//! The trait of stores whose domains are read where they stand.
ghost use Rattle.std.specs.Prelude.{◌≡◌, ◌<◌, Some, length, slice_get};
ghost use Rattle.pi_constraints.specs.Domain.{IsDomain};
ghost use Rattle.pi_constraints.specs.Stored.{stored};

use crate::domain::Span;
use crate::store::StateStore;

/// A store whose domains are read where they stand, span by span. It takes no memory.
pub trait StoredDomains: StateStore {
    /// How many spans the variable with this number has; none where it has no domain.
    fn span_count(&self, n: u64) -> usize
        ensures count { result ≡ length (stored (Self.seen self.now).now.state n) }
        ensures domain { IsDomain (stored (Self.seen self.now).now.state n) };

    /// The span of a variable with this number, counted from 0.
    fn span(&self, n: u64, k: usize) -> Span
        ensures { k < length (stored (Self.seen self.now).now.state n) →
            slice_get (stored (Self.seen self.now).now.state n) k ≡ Some result };
}
