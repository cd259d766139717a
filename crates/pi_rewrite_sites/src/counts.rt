//! How many helpers the loops of a text have.
ghost use Rattle.std.specs.Prelude.{◌≡◌, IfOk};
ghost use Rattle.pi_syntax.specs.ExpTree.{exp_tree};
ghost use Rattle.pi_syntax.specs.ExpLists.{exps_of};
ghost use Rattle.pi_meaning.specs.OverNames.Texts.{iterated as iterated_of};
ghost use Rattle.pi_rewrite_slots.specs.Branches.{branches_in};
ghost use Rattle.pi_rewrite_sites.specs.Sums.{IsMore};
ghost use Rattle.pi_rewrite_spec.specs.Sites.{helpers_in as helpers_of, helpers_in_all as helpers_of_all, helpers_in_branches as helpers_of_branches, helpers_in_units as helpers_of_units, iterator_helpers as iterator_helpers_of, start_helpers as start_helpers_of};

use crate::numbers::{sum, together};
use crate::units::{begins_with_iterator, iterated};
use pi_syntax::Exp;
use std::alloc::AllocError;

/// How many helpers the loops in an expression have. For more than 64 bits hold memory is wanted.
#[cycle(counts)]
#[tactic(auto, unfolding(pi_syntax::specs::ExpTree::exp_tree, pi_rewrite_spec::specs::Sites::helpers_in))]
pub fn helpers_in(exp: &Exp) -> Result<u64, AllocError>
    ensures { IfOk result (λ count. count ≡ helpers_of (exp_tree exp.now)) }
{
    match exp {
        Exp::Var(_) => Ok(0),
        Exp::Int(_) => Ok(0),
        Exp::Atom(_) => Ok(0),
        Exp::Str(_) => Ok(0),
        Exp::List(items, tail) => match tail {
            Some(tail) => sum(helpers_in_all(items.as_slice()), helpers_in(tail)),
            None => helpers_in_all(items.as_slice()),
        },
        Exp::Array(items) => helpers_in_all(items.as_slice()),
        Exp::Call(_, args) => helpers_in_all(args.as_slice()),
        Exp::Quote(_) => Ok(0),
        Exp::Index(of, places) => sum(helpers_in(of), helpers_in_all(places.as_slice())),
        Exp::Range(first, step, last) => match step {
            Some(step) => sum(helpers_in(first), sum(helpers_in(step), helpers_in(last))),
            None => sum(helpers_in(first), helpers_in(last)),
        },
        Exp::At(_, _) => Ok(0),
        Exp::Collect(_, item, units) => with_start(
            units.as_slice(),
            sum(helpers_in_units(units.as_slice()), helpers_in(item)),
        ),
        Exp::And(parts) => helpers_in_all(parts.as_slice()),
        Exp::Or(parts) => helpers_in_all(parts.as_slice()),
        Exp::Arrow(test, body) => sum(helpers_in(test), helpers_in(body)),
        Exp::If(branches, other) => match other {
            Some(other) => sum(helpers_in_branches(branches.as_slice()), helpers_in(other)),
            None => helpers_in_branches(branches.as_slice()),
        },
        Exp::Foreach(units, body) => with_start(
            units.as_slice(),
            sum(helpers_in_units(units.as_slice()), helpers_in(body)),
        ),
        Exp::While(test, body) => with_own(sum(helpers_in(test), helpers_in(body))),
        Exp::DoWhile(body, test) => with_own(sum(helpers_in(body), helpers_in(test))),
    }
}

/// How many helpers a loop has, by those of its iterators and tests and of what stands in it, where these were counted.
fn with_start(units: &[Exp], inner: Result<u64, AllocError>) -> Result<u64, AllocError>
    ensures { IfOk result (λ count. IsMore inner (start_helpers_of (exps_of units.now)) count) }
{
    together(inner?, start_helpers(units))
}

/// How many helpers a `while` or a `do` has: those in it, where these were counted, and its own.
fn with_own(inner: Result<u64, AllocError>) -> Result<u64, AllocError>
    ensures { IfOk result (λ count. IsMore inner 1 count) }
{
    together(inner?, 1)
}

/// A loop that begins with no iterator has one helper, for its one turn.
fn start_helpers(units: &[Exp]) -> u64
    ensures { result ≡ start_helpers_of (exps_of units.now) }
{
    if begins_with_iterator(units) { 0 } else { 1 }
}

/// How many helpers the loops in expressions have. For more than 64 bits hold memory is wanted.
#[cycle(counts)]
pub fn helpers_in_all(exps: &[Exp]) -> Result<u64, AllocError>
    ensures { IfOk result (λ count. count ≡ helpers_of_all (exps_of exps.now)) }
{
    let mut count = 0;
    for exp in exps {
        let more = helpers_in(exp)?;
        count = together(count, more)?;
    }
    Ok(count)
}

/// How many helpers the loops in conditions and their bodies have. For more than 64 bits hold memory is wanted.
#[cycle(counts)]
pub fn helpers_in_branches(branches: &[(Exp, Exp)]) -> Result<u64, AllocError>
    ensures { IfOk result (λ count. count ≡ helpers_of_branches (branches_in branches.now)) }
{
    let mut count = 0;
    for branch in branches {
        let test = helpers_in(&branch.0)?;
        let body = helpers_in(&branch.1)?;
        let both = together(test, body)?;
        count = together(count, both)?;
    }
    Ok(count)
}

/// How many helpers iterators and tests have: an iterator has two of its own. For more than 64 bits hold memory is wanted.
#[cycle(counts)]
pub fn helpers_in_units(units: &[Exp]) -> Result<u64, AllocError>
    ensures { IfOk result (λ count. count ≡ helpers_of_units (exps_of units.now)) }
{
    let mut count = 0;
    for unit in units {
        let inner = helpers_in(unit)?;
        let all = together(inner, iterator_helpers(unit))?;
        count = together(count, all)?;
    }
    Ok(count)
}

/// An iterator has a helper that takes the next element, and one that matches it.
fn iterator_helpers(unit: &Exp) -> u64
    ensures { result ≡ iterator_helpers_of (iterated_of (exp_tree unit.now)) }
{
    if iterated(unit).is_some() { 2 } else { 0 }
}
