//! Unification of a variable with a term or with another variable.
ghost use Rattle.std.specs.Prelude.{◌≡◌, false, ℕ, ◌<◌, ◌≤◌, IfOk, OnOk, List};
ghost use Rattle.pi_terms.specs.Tree.{int, var};
ghost use Rattle.pi_constraints.specs.State.{domain_of, with_binding, with_domain};
ghost use Rattle.pi_constraints.specs.Domain.{IsDomain, values_of, size_of};
ghost use Rattle.pi_constraints.specs.Store.{Keeps, ShowsCell};
ghost use Rattle.pi_constraints.specs.Unify.{admits, assigned, joined, joined_with, confined};
ghost use Rattle.pi_unify.specs.Refs.{root_of, AreVariables, IsAssigned};
ghost use Rattle.pi_unify.specs.Answers.{Makes, has_cell};

use crate::occurs::occurs;
use pi_constraints::{Cell, Domain, Ref, StateStore, contains, meet, min, size};
use std::alloc::{AllocError, Global};

/// An unbound variable.
#[derive(Clone, Copy)]
pub(crate) struct Variable {
    pub(crate) at: Ref,
    pub(crate) number: u64,
}

/// Makes a variable equal to a term that is none.
pub(crate) fn assign<S: StateStore>(
    alloc: Global,
    s: &mut S,
    x: Variable,
    r: Ref,
) -> Result<bool, AllocError>
    ensures keeps { Keeps (S.seen s.old) (S.seen s.new) }
    ensures makes { IfOk result (λ one. IsAssigned (S.seen s.old) x r →
        Makes (assigned (S.seen s.old).now.state x.number (root_of (S.seen s.old) r)) one (S.seen s.new).now.state) }
    ensures refused { IfOk result (λ one. one ≡ false → (S.seen s.new).now.state ≡ (S.seen s.old).now.state) }
{
    let found = occurs(alloc, s, x.number, r)?;
    if found {
        return Ok(false);
    }
    let can = can_be(alloc, s, x, r)?;
    if !can {
        return Ok(false);
    }
    s.bind(x.at, r)?;
    Ok(true)
}

/// Whether a variable has no domain, or the term is a value of it.
fn can_be<S: StateStore>(alloc: Global, s: &S, x: Variable, r: Ref) -> Result<bool, AllocError>
    ensures { IfOk result (λ can. IsAssigned (S.seen s.now) x r →
        can ≡ admits (domain_of (S.seen s.now).now.state x.number) (root_of (S.seen s.now) r)) }
{
    match s.domain(alloc, x.at)? {
        None => Ok(true),
        Some(d) => Ok(is_value(&d, s.look(r))),
    }
}

fn is_value(d: &Domain, cell: Cell) -> bool
    ensures { result ≡ has_cell d.now cell }
{
    match cell {
        Cell::Int(i) => contains(d, i),
        _ => false,
    }
}

/// Makes two variables equal.
pub(crate) fn join<S: StateStore>(
    alloc: Global,
    s: &mut S,
    low: Variable,
    high: Variable,
) -> Result<bool, AllocError>
    ensures keeps { Keeps (S.seen s.old) (S.seen s.new) }
    ensures makes { IfOk result (λ one. AreVariables (S.seen s.old) low high →
        Makes (joined (S.seen s.old).now.state low.number high.number) one (S.seen s.new).now.state) }
    ensures refused { IfOk result (λ one. one ≡ false → (S.seen s.new).now.state ≡ (S.seen s.old).now.state) }
{
    let high_domain = s.domain(alloc, high.at)?;
    let Some(e) = high_domain else {
        s.bind(high.at, low.at)?;
        return Ok(true);
    };
    let low_domain = s.domain(alloc, low.at)?;
    let Some(d) = low_domain else {
        narrow(s, low, high, &e)?;
        return Ok(true);
    };
    let both = meet(alloc, &d, &e)?;
    confine(s, low, high, &both)
}

/// Makes two variables equal that have these values in common.
fn confine<S: StateStore>(
    s: &mut S,
    low: Variable,
    high: Variable,
    both: &Domain,
) -> Result<bool, AllocError>
    ensures keeps { Keeps (S.seen s.old) (S.seen s.new) }
    ensures makes { IfOk result (λ one. AreVariables (S.seen s.old) low high → IsDomain both.now →
        Makes (confined (S.seen s.old).now.state low.number high.number both.now (values_of both.now)) one
        (S.seen s.new).now.state) }
    ensures refused { IfOk result (λ one. one ≡ false → (S.seen s.new).now.state ≡ (S.seen s.old).now.state) }
{
    let Some(least) = min(both) else {
        return Ok(false);
    };
    if size(both) == 1 {
        fix(s, low, high, i128::from(least))?;
    } else {
        narrow(s, low, high, both)?;
    }
    Ok(true)
}

/// Binds the higher of two variables to the lower, which gets a domain.
fn narrow<S: StateStore>(
    s: &mut S,
    low: Variable,
    high: Variable,
    d: &Domain,
) -> Result<(), AllocError>
    ensures keeps { Keeps (S.seen s.old) (S.seen s.new) }
    ensures ok { OnOk result (AreVariables (S.seen s.old) low high → 2 ≤ size_of d.now →
        (S.seen s.new).now.state ≡ with_domain (with_binding (S.seen s.old).now.state high.number (var low.number)) low.number
        d.now) }
{
    s.bind(high.at, low.at)?;
    s.set_domain(low.at, d)
}

/// Binds the higher of two variables to the lower, and that to an integer.
fn fix<S: StateStore>(s: &mut S, low: Variable, high: Variable, n: i128) -> Result<(), AllocError>
    ensures keeps { Keeps (S.seen s.old) (S.seen s.new) }
    ensures ok { OnOk result (AreVariables (S.seen s.old) low high →
        (S.seen s.new).now.state ≡ with_binding (with_binding (S.seen s.old).now.state high.number (var low.number)) low.number
        (int n)) }
{
    s.bind(high.at, low.at)?;
    let value = s.put_int(n)?;
    s.bind(low.at, value)
}
