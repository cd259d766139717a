//! Places whose values stand in a store.
ghost use Rattle.std.specs.Prelude.{◌≡◌, [], IfOk, length, map, option_copied, slice_get};
ghost use Rattle.pi_constraints.specs.Constraint.{AreItems};
ghost use Rattle.pi_queue.specs.Standing.{standing_at};

use crate::asks::{has_value_between, share};
use crate::held::Held;
use pi_constraints::{Domain, Item, Span, StoredDomains};
use pi_prop_places::Places;
use std::alloc::{AllocError, Global};

/// The places of a constraint. Their values stand in a store, and are copied where the first of them goes. (By the store, named
/// beside them, a caller of a generic function knows that it lasts as long as they do.)
#[derive(Drop)]
pub struct HeldPlaces<'a, S: StoredDomains> {
    pub(crate) store: &'a S,
    pub(crate) held: Vec<Held<'a, S>>,
}

impl<'a, S: StoredDomains> HeldPlaces<'a, S> {
    /// The places of items that are followed.
    pub fn of(alloc: Global, store: &'a S, items: &[Item]) -> Result<HeldPlaces<'a, S>, AllocError>
        ensures count { IfOk result (λ made. length made.held.items ≡ length items.now) }
        ensures values { IfOk result (λ made. AreItems items.now →
            made.held.items ≡ map (standing_at (S.seen store.entry.now).now.state) items.now) }
    {
        let mut held = Vec::new(alloc);
        for k in 0..items.len() {
            let one = Held::of(store, items[k]);
            held.push(one)?;
        }
        Ok(HeldPlaces { store, held })
    }

    /// The values at a place, where there is one.
    pub(crate) fn at(&self, k: usize) -> Option<&Held<'a, S>>
        ensures { option_copied result ≡ slice_get self.now.held.items k }
    {
        self.held.as_slice().get(k)
    }
}

impl<'a, S: StoredDomains> Places for HeldPlaces<'a, S> {
    ghost domains = { λ p. p.held.items };

    fn count(&self) -> usize {
        self.held.len()
    }

    fn is_empty(&self, k: usize) -> bool {
        match self.at(k) {
            Some(held) => held.is_empty(),
            None => true,
        }
    }

    fn least(&self, k: usize) -> i64 {
        match self.at(k) {
            Some(held) => held.least(),
            None => 0,
        }
    }

    fn greatest(&self, k: usize) -> i64 {
        match self.at(k) {
            Some(held) => held.greatest(),
            None => 0,
        }
    }

    fn has(&self, k: usize, n: i128) -> bool {
        match self.at(k) {
            Some(held) => has_value_between(held, n, n),
            None => false,
        }
    }

    fn has_between(&self, k: usize, lo: i128, hi: i128) -> bool {
        match self.at(k) {
            Some(held) => has_value_between(held, lo, hi),
            None => false,
        }
    }

    fn shares(&self, j: usize, k: usize) -> bool {
        match self.at(j) {
            Some(first) => match self.at(k) {
                Some(second) => share(first, second),
                None => false,
            },
            None => false,
        }
    }

    fn push_spans(&self, k: usize, spans: &mut Vec<Span>) -> Result<(), AllocError> {
        match self.at(k) {
            Some(held) => {
                held.push_spans(spans)?;
                Ok(())
            }
            None => Ok(()),
        }
    }

    fn domain(&self, alloc: Global, k: usize) -> Result<Domain, AllocError> {
        match self.at(k) {
            Some(held) => {
                let made = held.copy(alloc)?;
                Ok(made)
            }
            None => Ok(nothing(alloc)),
        }
    }

    fn cut_below(&mut self, alloc: Global, k: usize, n: i128) -> Result<(), AllocError> {
        if self.held.len() <= k {
            return Ok(());
        }
        self.held[k].cut_below(alloc, n)?;
        Ok(())
    }

    fn cut_above(&mut self, alloc: Global, k: usize, n: i128) -> Result<(), AllocError> {
        if self.held.len() <= k {
            return Ok(());
        }
        self.held[k].cut_above(alloc, n)?;
        Ok(())
    }

    fn remove(&mut self, alloc: Global, k: usize, n: i128) -> Result<(), AllocError> {
        if self.held.len() <= k {
            return Ok(());
        }
        self.held[k].remove(alloc, n)?;
        Ok(())
    }

    fn keep(&mut self, alloc: Global, k: usize, kept: &Domain) -> Result<(), AllocError> {
        if self.held.len() <= k {
            return Ok(());
        }
        self.held[k].keep(alloc, kept)?;
        Ok(())
    }
}

/// The domain without a value.
#[tactic(auto, unfolding(pi_constraints::specs::Domain::AscendFrom))]
fn nothing(alloc: Global) -> Domain
    ensures { result ≡ [] }
{
    Domain::new(Vec::new(alloc))
}
