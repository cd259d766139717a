//! Domains that are narrowed where they stand, as places.
ghost use Rattle.std.specs.Prelude.{◌≡◌, ◌↔◌, IsTrue, [], option_copied, slice_get};
ghost use Rattle.pi_constraints.specs.Domain.{IsDomain, IsWithinBounds};
ghost use Rattle.pi_prop_spec.specs.Ends.{least_of, greatest_of};

use crate::asks::{has_value_between, share};
use crate::narrowed::Narrowed;
use crate::places::Places;
use pi_constraints::{Domain, Span};
use std::alloc::{AllocError, Global};

impl Places for Vec<Narrowed> {
    ghost use Rattle.std.specs.Prelude.{List};
    ghost use Rattle.pi_constraints.specs.declared.domain.Span.{Span};

    ghost domains = { λ ds. ds.items };

    fn count(&self) -> usize {
        self.len()
    }

    fn is_empty(&self, k: usize) -> bool {
        match narrowed_at(self, k) {
            Some(domain) => has_none(domain),
            None => true,
        }
    }

    fn least(&self, k: usize) -> i64 {
        match narrowed_at(self, k) {
            Some(domain) => first(domain),
            None => 0,
        }
    }

    fn greatest(&self, k: usize) -> i64 {
        match narrowed_at(self, k) {
            Some(domain) => last(domain),
            None => 0,
        }
    }

    fn has(&self, k: usize, n: i128) -> bool {
        match narrowed_at(self, k) {
            Some(domain) => has_value_between(domain, n, n),
            None => false,
        }
    }

    fn has_between(&self, k: usize, lo: i128, hi: i128) -> bool {
        match narrowed_at(self, k) {
            Some(domain) => has_value_between(domain, lo, hi),
            None => false,
        }
    }

    fn shares(&self, j: usize, k: usize) -> bool {
        match narrowed_at(self, j) {
            Some(first) => match narrowed_at(self, k) {
                Some(second) => share(first, second),
                None => false,
            },
            None => false,
        }
    }

    fn push_spans(&self, k: usize, spans: &mut Vec<Span>) -> Result<(), AllocError> {
        match narrowed_at(self, k) {
            Some(domain) => {
                spans.extend_from_slice(domain.spans())?;
                Ok(())
            }
            None => Ok(()),
        }
    }

    fn domain(&self, alloc: Global, k: usize) -> Result<Domain, AllocError> {
        match narrowed_at(self, k) {
            Some(domain) => {
                let made = domain.copy(alloc)?;
                Ok(made)
            }
            None => Ok(nothing(alloc)),
        }
    }

    fn cut_below(&mut self, _alloc: Global, k: usize, n: i128) -> Result<(), AllocError> {
        if self.len() <= k {
            return Ok(());
        }
        self[k].cut_below(n);
        Ok(())
    }

    fn cut_above(&mut self, _alloc: Global, k: usize, n: i128) -> Result<(), AllocError> {
        if self.len() <= k {
            return Ok(());
        }
        self[k].cut_above(n);
        Ok(())
    }

    fn remove(&mut self, _alloc: Global, k: usize, n: i128) -> Result<(), AllocError> {
        if self.len() <= k {
            return Ok(());
        }
        self[k].remove(n)?;
        Ok(())
    }

    fn keep(&mut self, alloc: Global, k: usize, kept: &Domain) -> Result<(), AllocError> {
        if self.len() <= k {
            return Ok(());
        }
        self[k].keep(alloc, kept)?;
        Ok(())
    }
}

/// The domain at a place, where there is one.
fn narrowed_at(all: &Vec<Narrowed>, k: usize) -> Option<&Narrowed>
    ensures { option_copied result ≡ slice_get all.now.items k }
{
    all.as_slice().get(k)
}

/// Whether a domain has no value.
fn has_none(domain: &Narrowed) -> bool
    ensures { IsTrue result ↔ (domain.now ≡ []) }
{
    domain.spans().is_empty()
}

/// The domain without a value.
#[tactic(auto, unfolding(pi_constraints::specs::Domain::AscendFrom))]
pub(crate) fn nothing(alloc: Global) -> Domain
    ensures { result ≡ [] }
{
    Domain::new(Vec::new(alloc))
}

/// The least value of a domain; 0 where there is none.
fn first(domain: &Narrowed) -> i64
    ensures is { result ≡ least_of domain.now }
    ensures within { IsWithinBounds result }
    ensures spans { IsDomain domain.now }
{
    match domain.spans().first() {
        Some(span) => span.lo,
        None => 0,
    }
}

/// The greatest value of a domain; 0 where there is none.
fn last(domain: &Narrowed) -> i64
    ensures is { result ≡ greatest_of domain.now }
    ensures within { IsWithinBounds result }
    ensures spans { IsDomain domain.now }
{
    match domain.spans().last() {
        Some(span) => span.hi,
        None => 0,
    }
}
