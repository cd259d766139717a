//! What a filter reads of the places of a constraint, and how it narrows them.
ghost use Rattle.std.specs.Prelude.{◌≡◌, ◌↔◌, ◌++◌, [], IsTrue, IfOk, ℕ, ℤ, List, length, int_le, not};
ghost use Rattle.std.specs.Ordering.{int_eq};
ghost use Rattle.pi_constraints.specs.declared.domain.Span.{Span};
ghost use Rattle.pi_constraints.specs.Domain.{IsDomain, IsWithinBounds, has_value};
ghost use Rattle.pi_prop_spec.specs.Ends.{least_of, greatest_of};
ghost use Rattle.pi_prop_spec.specs.Places.{domain_at};
ghost use Rattle.pi_prop_spec.specs.Rules.{ShareAValue};
ghost use Rattle.pi_prop_places.specs.Changes.{IsCutAt};
ghost use Rattle.pi_prop_places.specs.Reads.{HasValueBetween};

use pi_constraints::{Domain, Span};
use std::alloc::{AllocError, Global};

/// The places of a constraint with their domains, counted from 0. A place that isn't there has the domain without a value.
/// What a call leaves where memory is wanted isn't told.
pub trait Places {
    /// The domain at each place.
    ghost domains: { Self → List (List Span) };

    /// How many places there are.
    fn count(&self) -> usize
        ensures { result ≡ length (domains self.now) };

    /// Whether the domain at a place has no value.
    fn is_empty(&self, k: usize) -> bool
        ensures { IsTrue result ↔ (domain_at (domains self.now) k ≡ []) };

    /// The least value at a place; 0 where there is none.
    fn least(&self, k: usize) -> i64
        ensures is { result ≡ least_of (domain_at (domains self.now) k) }
        ensures within { IsWithinBounds result }
        ensures spans { IsDomain (domain_at (domains self.now) k) };

    /// The greatest value at a place; 0 where there is none.
    fn greatest(&self, k: usize) -> i64
        ensures is { result ≡ greatest_of (domain_at (domains self.now) k) }
        ensures within { IsWithinBounds result };

    /// Whether a place has the value `n`.
    fn has(&self, k: usize, n: i128) -> bool
        ensures { result ≡ has_value (domain_at (domains self.now) k) n };

    /// Whether a place has a value from `lo` to `hi`.
    fn has_between(&self, k: usize, lo: i128, hi: i128) -> bool
        ensures { IsTrue result ↔ HasValueBetween (domain_at (domains self.now) k) lo hi };

    /// Whether two places have a value in common.
    fn shares(&self, j: usize, k: usize) -> bool
        ensures { IsTrue result ↔ ShareAValue (domain_at (domains self.now) j) (domain_at (domains self.now) k) };

    /// Puts the spans of the values at a place behind others.
    fn push_spans(&self, k: usize, spans: &mut Vec<Span>) -> Result<(), AllocError>
        ensures { IfOk result (λ _. spans.new.items ≡ spans.old.items ++ domain_at (domains self.now) k) };

    /// Another domain with the values at a place.
    fn domain(&self, alloc: Global, k: usize) -> Result<Domain, AllocError>
        ensures { IfOk result (λ made. made ≡ domain_at (domains self.now) k) };

    /// Leaves a place the values that are at least `n`.
    fn cut_below(&mut self, alloc: Global, k: usize, n: i128) -> Result<(), AllocError>
        ensures { IfOk result (λ _. IsCutAt k (λ m. int_le n m) (domains self.old) (domains self.new)) };

    /// Leaves a place the values that are at most `n`.
    fn cut_above(&mut self, alloc: Global, k: usize, n: i128) -> Result<(), AllocError>
        ensures { IfOk result (λ _. IsCutAt k (λ m. int_le m n) (domains self.old) (domains self.new)) };

    /// Leaves a place the values other than `n`.
    fn remove(&mut self, alloc: Global, k: usize, n: i128) -> Result<(), AllocError>
        ensures { IfOk result (λ _. IsCutAt k (λ m. not (int_eq m n)) (domains self.old) (domains self.new)) };

    /// Leaves a place the values that a domain has too.
    fn keep(&mut self, alloc: Global, k: usize, kept: &Domain) -> Result<(), AllocError>
        ensures { IfOk result (λ _. IsCutAt k (λ m. has_value kept.now m) (domains self.old) (domains self.new)) };
}
