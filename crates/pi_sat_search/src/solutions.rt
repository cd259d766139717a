//! Whether values are a solution.
ghost use Rattle.std.specs.Prelude.{◌≡◌, ◌↔◌, IsTrue, IfOk, All, map, ℤ, ℕ};
ghost use Rattle.pi_constraints.specs.Constraint.{IsWithinLimits};
ghost use Rattle.pi_constraints.specs.Domain.{IsWithinBounds};
ghost use Rattle.pi_prop_spec.specs.Solutions.{value_of, Holds};
ghost use Rattle.pi_sat_spec.specs.Domains.{only};
ghost use Rattle.pi_sat_spec.specs.Solutions.{IsSolution, LiesWithin};
ghost use Rattle.pi_sat_search.specs.Assigned.{assigned};

use crate::filtered::{have_none, only};
use crate::given::Given;
use pi_constraints::{Constraint, Domains, Item, MAX_VALUE, VarDomain, contains};
use pi_prop_filters::{filter, places};
use std::alloc::{AllocError, Global};

/// Whether values are a solution: each domain has its variable's value, and each constraint's filter leaves it.
pub(crate) fn is_solution(given: &Given, values: &[(u64, i64)]) -> Result<bool, AllocError>
    requires { All IsWithinLimits given.now.constraints }
    ensures { IfOk result (λ is. IsTrue is → IsSolution given.now.domains given.now.constraints (assigned values.now)) }
{
    if !lie_within(given.domains.as_slice(), values) {
        return Ok(false);
    }
    let hold = all_hold(given.alloc, given.constraints.as_slice(), values)?;
    Ok(hold)
}

/// Whether each domain has its variable's value.
fn lie_within(domains: &[VarDomain], values: &[(u64, i64)]) -> bool
    ensures { IsTrue result → LiesWithin domains.now (assigned values.now) }
{
    for given in domains {
        if !contains(&given.domain, i128::from(assigned(values, given.var))) {
            return false;
        }
    }
    true
}

/// Whether each constraint's filter leaves the values.
fn all_hold(
    alloc: Global,
    constraints: &[Constraint],
    values: &[(u64, i64)],
) -> Result<bool, AllocError>
    requires { All IsWithinLimits constraints.now }
    ensures { IfOk result (λ hold. IsTrue hold → All (λ c. Holds c (assigned values.now)) constraints.now) }
{
    for constraint in constraints {
        if !holds(alloc, constraint, values)? {
            return Ok(false);
        }
    }
    Ok(true)
}

/// Whether a constraint's filter leaves the values.
fn holds(alloc: Global, constraint: &Constraint, values: &[(u64, i64)]) -> Result<bool, AllocError>
    requires { IsWithinLimits constraint.now }
    ensures { IfOk result (λ holds. IsTrue holds → Holds constraint.now (assigned values.now)) }
{
    let items = places(alloc, constraint)?;
    let numbers = values_of(alloc, values, items.as_slice())?;
    if !are_within_bounds(numbers.as_slice()) {
        return Ok(false);
    }
    let domains = fixed(alloc, numbers.as_slice())?;
    let left = filter(alloc, constraint, &domains)?;
    Ok(!have_none(left.as_slice()))
}

/// The values of items.
fn values_of(alloc: Global, values: &[(u64, i64)], items: &[Item]) -> Result<Vec<i64>, AllocError>
    ensures { IfOk result (λ made. made.items ≡ map (value_of (assigned values.now)) items.now) }
{
    let mut all = Vec::new(alloc);
    for i in 0..items.len() {
        all.push(value_of(values, items[i]))?;
    }
    Ok(all)
}

/// The value of an item.
fn value_of(values: &[(u64, i64)], item: Item) -> i64
    ensures { result ≡ value_of (assigned values.now) item }
{
    match item {
        Item::Var(var) => assigned(values, var),
        Item::Int(n) => n,
    }
}

/// The value of a variable: the first that it has, and 0 where it has none.
fn assigned(values: &[(u64, i64)], var: u64) -> i64
    ensures { result ≡ assigned values.now var }
{
    for i in 0..values.len() {
        let (here, value) = values[i];
        if here == var {
            return value;
        }
    }
    0
}

/// Whether each number is one that a domain can have.
fn are_within_bounds(numbers: &[i64]) -> bool
    ensures { IsTrue result ↔ All IsWithinBounds numbers.now }
{
    numbers.iter().all(|n| -MAX_VALUE <= *n && *n <= MAX_VALUE)
}

/// For each number the domain of it alone.
fn fixed(alloc: Global, numbers: &[i64]) -> Result<Domains, AllocError>
    requires { All IsWithinBounds numbers.now }
    ensures { IfOk result (λ made. made ≡ map only numbers.now) }
{
    let mut all = Vec::new(alloc);
    for i in 0..numbers.len() {
        let domain = only(alloc, numbers[i])?;
        all.push(domain)?;
    }
    Ok(Domains::from_vec(all))
}
