//! What the filter of a constraint leaves of the domains at its places.
ghost use Rattle.std.specs.Prelude.{◌≡◌, ◌↔◌, ◌++◌, ◌∷◌, [], ℕ, ℤ, ◌<◌, IsTrue, IfOk, length, map, All};
ghost use Rattle.pi_constraints.specs.Constraint.{IsItem, AreItems, IsWithinLimits};
ghost use Rattle.pi_constraints.specs.Domain.{has_value, IsWithinBounds};
ghost use Rattle.pi_prop_filters.specs.Left.{AreLeft};
ghost use Rattle.pi_prop_spec.specs.Places.{places_of, domain_at};
ghost use Rattle.pi_sat_spec.specs.Domains.{domain_of, item_domain, only, at_places};
ghost use Rattle.pi_sat_spec.specs.Logs.{Refutes};
ghost use Rattle.pi_sat_spec.specs.Places.{HaveNone};

use crate::cuts::{has_empty, is_empty};
use crate::lookup::place_of;
use pi_constraints::{Constraint, Domain, Domains, Item, Span, VarDomain};
use pi_prop_filters::{filter, places};
use std::alloc::{AllocError, Global};

/// Whether a domain is empty, or the constraint's filter empties one at its places.
pub(crate) fn refutes(
    alloc: Global,
    constraint: &Constraint,
    present: &[VarDomain],
) -> Result<bool, AllocError>
    requires { IsWithinLimits constraint.now }
    ensures { IfOk result (λ refuted. IsTrue refuted ↔ Refutes constraint.now present.now) }
{
    if has_empty(present) {
        return Ok(true);
    }
    let left = left_at_places(alloc, constraint, present)?;
    Ok(have_none(left.as_slice()))
}

/// What the constraint's filter leaves at its places.
pub(crate) fn left_at_places(
    alloc: Global,
    constraint: &Constraint,
    present: &[VarDomain],
) -> Result<Domains, AllocError>
    requires { IsWithinLimits constraint.now }
    ensures { IfOk result (λ left. AreLeft constraint.now (at_places present.now constraint.now) left) }
{
    let items = places(alloc, constraint)?;
    let domains = domains_of(alloc, present, items.as_slice())?;
    let left = filter(alloc, constraint, &domains)?;
    Ok(left)
}

/// The domains of items.
fn domains_of(alloc: Global, present: &[VarDomain], items: &[Item]) -> Result<Domains, AllocError>
    requires { AreItems items.now }
    ensures { IfOk result (λ made. made ≡ map (item_domain present.now) items.now) }
{
    let mut all = Vec::new(alloc);
    for i in 0..items.len() {
        let domain = item_domain(alloc, present, items[i])?;
        all.push(domain)?;
    }
    Ok(Domains::from_vec(all))
}

/// The domain of an item.
fn item_domain(alloc: Global, present: &[VarDomain], item: Item) -> Result<Domain, AllocError>
    requires { IsItem item }
    ensures { IfOk result (λ made. made ≡ item_domain present.now item) }
{
    match item {
        Item::Int(n) => only(alloc, n),
        Item::Var(var) => variable_domain(alloc, present, var),
    }
}

/// The domain of a variable; that without a value where it has none.
fn variable_domain(alloc: Global, present: &[VarDomain], var: u64) -> Result<Domain, AllocError>
    ensures { IfOk result (λ made. made ≡ domain_of present.now var) }
{
    match place_of(present, var) {
        None => Ok(Domain::new(Vec::new(alloc))),
        Some(i) => {
            let domain = present[i].domain.copy(alloc)?;
            Ok(domain)
        }
    }
}

/// The domain of one value.
pub(crate) fn only(alloc: Global, n: i64) -> Result<Domain, AllocError>
    requires { IsWithinBounds n }
    ensures { IfOk result (λ made. made ≡ only n) }
{
    let spans = Vec::from_slice(alloc, &[Span { lo: n, hi: n }])?;
    Ok(Domain::new(spans))
}

/// Whether one of the domains has no value.
pub(crate) fn have_none(domains: &[Domain]) -> bool
    ensures { IsTrue result ↔ HaveNone domains.now }
{
    for domain in domains {
        let _spans = domain.spans();
        if is_empty(domain) {
            return true;
        }
    }
    false
}
