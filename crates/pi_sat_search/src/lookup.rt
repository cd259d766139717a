//! Variables among those with domains.
ghost use Rattle.std.specs.Prelude.{◌≡◌, true, false, not, MatchOption};
ghost use Rattle.pi_constraints.specs.Domain.{has_value};
ghost use Rattle.pi_sat_spec.specs.Literals.{left_by};
ghost use Rattle.pi_sat_spec.specs.Domains.{domain_of, is_allowed, has_none};
ghost use Rattle.pi_sat_spec.specs.Places.{IsPlace, IsNoPlace};

use pi_constraints::{Domain, VarDomain, contains, max, min};
use pi_sat_spec::Literal;

/// The place of a variable's domain; None where it has none.
pub(crate) fn place_of(domains: &[VarDomain], var: u64) -> Option<usize>
    ensures { MatchOption result (IsNoPlace domains.now var) (IsPlace domains.now var) }
{
    for i in 0..domains.len() {
        if domains[i].var == var {
            return Some(i);
        }
    }
    None
}

/// Whether a literal's bound is a value of its variable's domain.
pub(crate) fn has_bound(domains: &[VarDomain], literal: Literal) -> bool
    ensures { result ≡ has_value (domain_of domains.now literal.var) literal.bound }
{
    match place_of(domains, literal.var) {
        None => false,
        Some(i) => contains(&domains[i].domain, i128::from(literal.bound)),
    }
}

/// Whether the domains have a value that makes a literal so.
pub(crate) fn is_allowed(domains: &[VarDomain], literal: Literal) -> bool
    ensures { result ≡ is_allowed domains.now literal }
{
    match place_of(domains, literal.var) {
        None => false,
        Some(i) => allows(&domains[i].domain, literal),
    }
}

/// Whether a domain has a value that makes a literal so.
pub(crate) fn allows(domain: &Domain, literal: Literal) -> bool
    ensures { result ≡ not (has_none (left_by literal domain.now)) }
{
    if literal.above {
        has_above(domain, literal)
    } else {
        has_at_most(domain, literal)
    }
}

/// Whether a domain has a value above a literal's bound.
fn has_above(domain: &Domain, literal: Literal) -> bool
    requires { literal.above ≡ true }
    ensures { result ≡ not (has_none (left_by literal domain.now)) }
{
    let _spans = domain.spans();
    match max(domain) {
        None => false,
        Some(greatest) => greatest > literal.bound,
    }
}

/// Whether a domain has a value that is at most a literal's bound.
fn has_at_most(domain: &Domain, literal: Literal) -> bool
    requires { literal.above ≡ false }
    ensures { result ≡ not (has_none (left_by literal domain.now)) }
{
    let _spans = domain.spans();
    match min(domain) {
        None => false,
        Some(least) => least <= literal.bound,
    }
}
