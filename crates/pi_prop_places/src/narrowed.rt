//! A domain that is narrowed where it stands.
ghost use Rattle.std.specs.Prelude.{◌≡◌, ◌&&◌, not, ℤ, IfOk, int_le};
ghost use Rattle.std.specs.Ordering.{int_eq};
ghost use Rattle.pi_constraints.specs.Domain.{IsDomain, has_value};

use crate::cuts::{drop_above, drop_below};
use crate::holes::drop_one;
use crate::shared::are_within;
use pi_constraints::{Domain, Span};
use std::alloc::{AllocError, Global};
use std::marker::Model;
use std::mem;

/// A domain that is narrowed where it stands: what goes at its ends takes no memory. A contract sees its spans, as those of a
/// `Domain`.
#[derive(Drop)]
pub struct Narrowed {
    spans: Vec<Span>,
}

impl Model for Narrowed {
    ghost use Rattle.std.specs.Prelude.{List};
    ghost use Rattle.pi_constraints.specs.declared.domain.Span.{Span};

    ghost Value = { List Span };

    ghost use Rattle.pi_constraints.specs.Domain.{IsDomain};

    ghost view = { λ a. a.spans.items };

    ghost invariant = { λ a. IsDomain a.spans.items };
}

impl Narrowed {
    /// The values of a domain, of which none is taken yet.
    pub fn of(alloc: Global, domain: &Domain) -> Result<Narrowed, AllocError>
        ensures { IfOk result (λ made. made ≡ domain.now) }
    {
        let spans = domain.spans().to_vec(alloc)?;
        Ok(Narrowed { spans })
    }

    /// The domain of the values that are left.
    pub fn into_domain(self) -> Domain
        ensures { result ≡ self }
    {
        Domain::new(self.spans)
    }

    /// A domain of the values that are left.
    pub fn copy(&self, alloc: Global) -> Result<Domain, AllocError>
        ensures { IfOk result (λ made. made ≡ self.now) }
    {
        let spans = self.spans().to_vec(alloc)?;
        Ok(Domain::new(spans))
    }

    /// The spans, ascending.
    pub fn spans(&self) -> &[Span]
        ensures all { result.now ≡ self.now }
        ensures domain { IsDomain self.now }
    {
        self.spans.as_slice()
    }

    /// Leaves the values that are at least `n`. It takes no memory, and looks at the spans that go and at the next one.
    pub fn cut_below(&mut self, n: i128)
        ensures { (m : ℤ) → has_value self.new m ≡ (has_value self.old m && int_le n m) }
    {
        drop_below(&mut self.spans, n);
    }

    /// Leaves the values that are at most `n`. It takes no memory, and looks at the spans that go and at the one before them.
    pub fn cut_above(&mut self, n: i128)
        ensures { (m : ℤ) → has_value self.new m ≡ (has_value self.old m && int_le m n) }
    {
        drop_above(&mut self.spans, n);
    }

    /// Leaves the values other than `n`. It wants memory only where a span falls into two.
    pub fn remove(&mut self, n: i128) -> Result<(), AllocError>
        ensures { IfOk result (λ _. (m : ℤ) → has_value self.new m ≡ (has_value self.old m && not (int_eq m n))) }
    {
        drop_one(&mut self.spans, n)?;
        Ok(())
    }

    /// Leaves the values that a domain has too. It wants memory only where values between those that are left go.
    pub fn keep(&mut self, alloc: Global, kept: &Domain) -> Result<(), AllocError>
        ensures { IfOk result (λ _. (m : ℤ) → has_value self.new m ≡ (has_value self.old m && has_value kept.now m)) }
    {
        self.cut_to_ends(kept);
        if are_within(self.spans(), kept.spans()) {
            return Ok(());
        }
        let whole = self.take(alloc);
        let left = pi_constraints::meet(alloc, &whole, kept)?;
        *self = Narrowed::of(alloc, &left)?;
        Ok(())
    }

    /// Takes values below the least and above the greatest one of a domain. What the domain has stays.
    fn cut_to_ends(&mut self, kept: &Domain)
        ensures { (m : ℤ) → (has_value self.new m && has_value kept.now m) ≡ (has_value self.old m && has_value kept.now m) }
    {
        let Some(least) = pi_constraints::min(kept) else {
            return;
        };
        self.cut_below(i128::from(least));
        let Some(greatest) = pi_constraints::max(kept) else {
            return;
        };
        self.cut_above(i128::from(greatest));
    }

    /// Takes all values out, as a domain.
    #[tactic(auto, unfolding(pi_constraints::specs::Domain::AscendFrom))]
    fn take(&mut self, alloc: Global) -> Domain
        ensures { result ≡ self.old }
    {
        let spans = mem::replace(&mut self.spans, Vec::new(alloc));
        Domain::new(spans)
    }
}
