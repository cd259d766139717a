//! Domains as the spans of their values.
ghost use Rattle.std.specs.Prelude.{◌≡◌, IfOk};
ghost use Rattle.pi_constraints.specs.Domain.{IsDomain};

use pi_terms::Series;
use std::alloc::{AllocError, Global};
use std::marker::Model;

/// The greatest value that a domain can have; the least is its negative. The number is own.
pub const MAX_VALUE: i64 = 72057594037927935;

/// The integers from `lo` to `hi`, both among them.
#[derive(Clone, Copy, PartialEq, Eq)]
pub struct Span {
    pub lo: i64,
    pub hi: i64,
}

/// A finite set of integers from `-MAX_VALUE` to `MAX_VALUE`; it may be empty. A contract sees its spans, which ascend and
/// neither overlap nor touch.
#[derive(Drop)]
pub struct Domain {
    spans: Vec<Span>,
}

impl Model for Domain {
    ghost use Rattle.std.specs.Prelude.{List};
    ghost use Rattle.pi_constraints.specs.declared.domain.Span.{Span};

    ghost Value = { List Span };

    ghost use Rattle.pi_constraints.specs.Domain.{IsDomain};

    ghost view = { λ a. a.spans.items };

    ghost invariant = { λ a. IsDomain a.spans.items };
}

impl Domain {
    /// The domain that these spans are.
    pub fn new(spans: Vec<Span>) -> Domain
        requires { IsDomain spans.items }
        ensures { result ≡ spans.items }
    {
        Domain { spans }
    }

    /// The spans, ascending.
    pub fn spans(&self) -> &[Span]
        ensures all { result.now ≡ self.now }
        ensures domain { IsDomain self.now }
    {
        self.spans.as_slice()
    }

    /// Another domain with the same values.
    pub fn copy(&self, alloc: Global) -> Result<Domain, AllocError>
        ensures ok { IfOk result (λ made. made ≡ self.now) }
    {
        let spans = self.spans().to_vec(alloc)?;
        Ok(Domain::new(spans))
    }
}

/// Domains, in order.
pub type Domains = Series<Domain>;
