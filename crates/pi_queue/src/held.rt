//! The values at a place, which stand in a store until the first of them goes.
ghost use Rattle.std.specs.Prelude.{◌≡◌, ◌↔◌, ◌<◌, ◌++◌, [], IsTrue, IfOk, Some, length, slice_get};
ghost use Rattle.pi_constraints.specs.Constraint.{IsItem};
ghost use Rattle.pi_constraints.specs.Domain.{IsDomain, IsWithinBounds};
ghost use Rattle.pi_prop_spec.specs.Ends.{least_of, greatest_of};
ghost use Rattle.pi_queue.specs.Standing.{standing_at};

use crate::stand::{Stand, stand_of, standing_count, standing_span};
use pi_constraints::{Domain, Item, Span, StoredDomains};
use pi_prop_places::Narrowed;
use std::alloc::{AllocError, Global};
use std::marker::Model;
use std::mem;

/// The values at a place. They stand in a store, and are copied where the first of them goes. A contract sees their spans.
#[derive(Drop)]
pub struct Held<'a, S: StoredDomains> {
    store: &'a S,
    stand: Stand,
    count: usize,
    own: Option<Narrowed>,
}

impl<'a, S: StoredDomains> Model for Held<'a, S> {
    ghost use Rattle.std.specs.Prelude.{◌≡◌, List, length, unwrap_or};
    ghost use Rattle.pi_constraints.specs.declared.domain.Span.{Span};
    ghost use Rattle.pi_constraints.specs.Domain.{IsDomain};

    ghost Value = { List Span };

    ghost use Rattle.pi_queue.specs.Standing.{standing};

    ghost view = { λ h. unwrap_or h.own (standing (S.seen h.store.now).now.state h.stand) };

    ghost invariant = { λ h. IsDomain (standing (S.seen h.store.now).now.state h.stand) ×
        (h.count ≡ length (standing (S.seen h.store.now).now.state h.stand)) };
}

impl<'a, S: StoredDomains> Held<'a, S> {
    /// The values of an item that is followed, where they stand. It takes no memory.
    pub fn of(store: &'a S, item: Item) -> Held<'a, S>
        ensures { IsItem item → result ≡ standing_at (S.seen store.entry.now).now.state item }
    {
        let stand = stand_of(item);
        let count = standing_count(store, stand);
        Held {
            store,
            stand,
            count,
            own: None,
        }
    }

    /// How many spans there are.
    pub fn len(&self) -> usize
        ensures count { result ≡ length self.now }
        ensures domain { IsDomain self.now }
    {
        match &self.own {
            Some(own) => own.spans().len(),
            None => self.count,
        }
    }

    /// The span with a number, counted from 0.
    pub fn span(&self, k: usize) -> Span
        ensures { k < length self.now → slice_get self.now k ≡ Some result }
    {
        match &self.own {
            Some(own) => span_at(own.spans(), k),
            None => standing_span(self.store, self.stand, k),
        }
    }

    /// Whether there is no value.
    pub fn is_empty(&self) -> bool
        ensures { IsTrue result ↔ (self.now ≡ []) }
    {
        self.len() == 0
    }

    /// The least value; 0 where there is none.
    pub fn least(&self) -> i64
        ensures is { result ≡ least_of self.now }
        ensures within { IsWithinBounds result }
        ensures spans { IsDomain self.now }
    {
        if self.len() == 0 {
            return 0;
        }
        self.span(0).lo
    }

    /// The greatest value; 0 where there is none.
    pub fn greatest(&self) -> i64
        ensures is { result ≡ greatest_of self.now }
        ensures within { IsWithinBounds result }
        ensures spans { IsDomain self.now }
    {
        let count = self.len();
        if count == 0 {
            return 0;
        }
        self.span(count - 1).hi
    }

    /// Puts the spans behind others.
    pub fn push_spans(&self, spans: &mut Vec<Span>) -> Result<(), AllocError>
        ensures { IfOk result (λ _. spans.new.items ≡ spans.old.items ++ self.now) }
    {
        for k in 0..self.len() {
            let span = self.span(k);
            spans.push(span)?;
        }
        Ok(())
    }

    /// The values as a domain of their own.
    pub fn copy(&self, alloc: Global) -> Result<Domain, AllocError>
        ensures { IfOk result (λ made. made ≡ self.now) }
    {
        let _count = self.len();
        let mut spans = Vec::new(alloc);
        self.push_spans(&mut spans)?;
        Ok(Domain::new(spans))
    }

    /// Takes the values out, to be put back narrowed.
    pub(crate) fn take(&mut self, alloc: Global) -> Result<Narrowed, AllocError>
        ensures { IfOk result (λ made. made ≡ self.old) }
    {
        match mem::replace(&mut self.own, None) {
            Some(own) => Ok(own),
            None => self.copied(alloc),
        }
    }

    /// The values, to be narrowed.
    fn copied(&self, alloc: Global) -> Result<Narrowed, AllocError>
        ensures { IfOk result (λ made. made ≡ self.now) }
    {
        let domain = self.copy(alloc)?;
        let made = Narrowed::of(alloc, &domain)?;
        Ok(made)
    }

    /// Puts values in place of those that there were.
    pub(crate) fn put(&mut self, own: Narrowed)
        ensures { self.new ≡ own }
    {
        self.own = Some(own);
    }
}

/// A span by its number; any one where there is none.
fn span_at(spans: &[Span], k: usize) -> Span
    ensures { k < length spans.now → slice_get spans.now k ≡ Some result }
{
    match spans.get(k) {
        Some(span) => *span,
        None => Span { lo: 0, hi: 0 },
    }
}
