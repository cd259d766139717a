//! Filters of lists of domains.
ghost use Rattle.std.specs.Prelude.{◌≡◌, IfOk, length};
ghost use Rattle.pi_constraints.specs.Constraint.{IsWithinLimits};
ghost use Rattle.pi_prop_spec.specs.Places.{places_of};
ghost use Rattle.pi_prop_places.specs.Changes.{AreFiltered};
ghost use Rattle.pi_prop_filters.specs.Left.{AreLeft, DistinctLeaves, IsReified};

use crate::narrowing::{narrow, narrow_distinct};
use pi_constraints::{Constraint, Domains};
use pi_prop_places::Narrowed;
use std::alloc::{AllocError, Global};

/// The domains at the places of a constraint, narrowed by its filter. There is a domain for each place, in order; at the
/// place of an integer it is the domain of that integer alone.
pub fn filter(
    alloc: Global,
    constraint: &Constraint,
    domains: &Domains,
) -> Result<Domains, AllocError>
    requires limits { IsWithinLimits constraint.now }
    requires count { length domains.now ≡ length (places_of constraint.now) }
    ensures { IfOk result (λ made. AreLeft constraint.now domains.now made) }
{
    let mut left = narrowed(alloc, domains)?;
    narrow(alloc, constraint, &mut left)?;
    let made = finished(alloc, left)?;
    Ok(made)
}

/// The same of a reified sum.
pub fn filter_reified(
    alloc: Global,
    constraint: &Constraint,
    domains: &Domains,
) -> Result<Domains, AllocError>
    requires kind { IsReified constraint.now }
    requires limits { IsWithinLimits constraint.now }
    requires count { length domains.now ≡ length (places_of constraint.now) }
    ensures { IfOk result (λ made. AreLeft constraint.now domains.now made) }
{
    filter(alloc, constraint, domains)
}

/// Domains, each of a place by itself, narrowed by the filter of `all_distinct`.
pub fn filter_distinct(alloc: Global, domains: &Domains) -> Result<Domains, AllocError>
    ensures { IfOk result (λ made. AreFiltered (DistinctLeaves domains.now) domains.now made) }
{
    let mut left = narrowed(alloc, domains)?;
    narrow_distinct(alloc, &mut left)?;
    let made = finished(alloc, left)?;
    Ok(made)
}

/// Domains that are to be narrowed.
fn narrowed(alloc: Global, domains: &Domains) -> Result<Vec<Narrowed>, AllocError>
    ensures { IfOk result (λ made. made.items ≡ domains.now) }
{
    let mut all = Vec::new(alloc);
    for domain in domains.as_slice() {
        all.push(Narrowed::of(alloc, domain)?)?;
    }
    Ok(all)
}

/// What is left of them.
fn finished(alloc: Global, left: Vec<Narrowed>) -> Result<Domains, AllocError>
    ensures { IfOk result (λ made. made ≡ left.items) }
{
    let mut domains = Vec::new(alloc);
    for one in left {
        domains.push(one.into_domain())?;
    }
    Ok(Domains::from_vec(domains))
}
