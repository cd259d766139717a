//! Which variable is taken next on the way down.
ghost use Rattle.std.specs.Prelude.{◌≡◌, ◌↔◌, IsTrue, MatchOption};
ghost use Rattle.pi_constraints.specs.Domain.{IsDomain};
ghost use Rattle.pi_prop_spec.specs.Ends.{least_of, greatest_of};
ghost use Rattle.pi_sat_search.specs.Nodes.{IsOpen, IsPick, NoneOpen, IsEarlier};
ghost use Rattle.pi_sat_search.specs.Steps.{IsOnce};

use pi_constraints::{Domain, VarDomain, max};

/// A variable, and its least value.
#[derive(Clone, Copy)]
pub(crate) struct Pick {
    pub(crate) var: u64,
    pub(crate) least: i64,
}

/// The first variable, by its number, that has two values or more; None where each has one at most.
pub(crate) fn first_open(present: &[VarDomain]) -> Option<Pick>
    requires { IsOnce present.now }
    ensures { MatchOption result (NoneOpen present.now) (IsPick present.now) }
{
    let mut first: Option<Pick> = None;
    for i in 0..present.len() {
        let one = &present[i];
        if is_open(&one.domain) {
            first = Some(earlier(first, one.var, least_of(&one.domain)));
        }
    }
    first
}

/// The pick of the lesser variable.
fn earlier(first: Option<Pick>, var: u64, least: i64) -> Pick
    ensures { IsEarlier first (record { var = var; least = least }) result }
{
    match first {
        Some(pick) if pick.var < var => pick,
        _ => Pick { var, least },
    }
}

/// Whether a domain has two values or more.
fn is_open(domain: &Domain) -> bool
    ensures two { IsTrue result ↔ IsOpen domain.now }
    ensures domain { IsDomain domain.now }
{
    least_of(domain) < greatest_of(domain)
}

/// The greatest value of a domain, and 0 where it has none.
fn greatest_of(domain: &Domain) -> i64
    ensures greatest { result ≡ greatest_of domain.now }
    ensures domain { IsDomain domain.now }
{
    let _spans = domain.spans();
    match max(domain) {
        None => 0,
        Some(greatest) => greatest,
    }
}

/// The least value of a domain, and 0 where it has none.
pub(crate) fn least_of(domain: &Domain) -> i64
    ensures { result ≡ least_of domain.now }
{
    match domain.spans().first() {
        None => 0,
        Some(span) => span.lo,
    }
}
