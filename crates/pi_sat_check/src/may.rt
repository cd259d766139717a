//! Whether a log may be checked over domains and constraints.
ghost use Rattle.std.specs.Prelude.{◌↔◌, IsTrue, IfOk};
ghost use Rattle.pi_sat_spec.specs.Solutions.{MaySearch};
ghost use Rattle.pi_sat_check.specs.May.{MayHave, HasValues, HaveValues};

use crate::cuts::is_empty;
use crate::lookup::place_of;
use pi_constraints::{Constraint, Constraints, Item, VarDomain, VarDomains};
use pi_prop_filters::{is_within_limits, places};
use std::alloc::{AllocError, Global};

/// Whether the constraints are within their limits and each variable of theirs has a domain that isn't empty: what `check` asks for.
///
/// # Errors
///
/// Memory was refused.
pub fn may_search(
    alloc: Global,
    domains: &VarDomains,
    constraints: &Constraints,
) -> Result<bool, AllocError>
    ensures { IfOk result (λ may. IsTrue may ↔ MaySearch domains.now constraints.now) }
{
    let all = constraints.as_slice();
    for i in 0..all.len() {
        if !may_have(alloc, domains.as_slice(), &all[i])? {
            return Ok(false);
        }
    }
    Ok(true)
}

/// The same of one constraint.
fn may_have(
    alloc: Global,
    domains: &[VarDomain],
    constraint: &Constraint,
) -> Result<bool, AllocError>
    ensures { IfOk result (λ may. IsTrue may ↔ MayHave domains.now constraint.now) }
{
    if !is_within_limits(constraint) {
        return Ok(false);
    }
    let items = places(alloc, constraint)?;
    Ok(have_values(domains, items.as_slice()))
}

/// Whether each item that is a variable has a domain that isn't empty.
fn have_values(domains: &[VarDomain], items: &[Item]) -> bool
    ensures { IsTrue result ↔ HaveValues domains.now items.now }
{
    for i in 0..items.len() {
        if !has_values(domains, items[i]) {
            return false;
        }
    }
    true
}

/// The same of one item.
fn has_values(domains: &[VarDomain], item: Item) -> bool
    ensures { IsTrue result ↔ HasValues domains.now item }
{
    match item {
        Item::Int(_) => true,
        Item::Var(var) => match place_of(domains, var) {
            None => false,
            Some(i) => !is_empty(&domains[i].domain),
        },
    }
}
