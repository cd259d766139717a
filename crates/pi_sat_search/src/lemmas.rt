//! Whether literals are a lemma over domains, and whether a lemma is kept already.
ghost use Rattle.std.specs.Prelude.{◌≡◌, ◌↔◌, IsTrue, All, false};
ghost use Rattle.pi_constraints.specs.Domain.{has_value};
ghost use Rattle.pi_sat_spec.specs.Literals.{Precedes, Ascends};
ghost use Rattle.pi_sat_spec.specs.Domains.{domain_of, IsLemma};
ghost use Rattle.pi_sat_spec.specs.Logs.{lemma_of};
ghost use Rattle.pi_sat_search.specs.Steps.{IsNew};

use crate::lookup::has_bound;
use pi_constraints::VarDomain;
use pi_sat_spec::{Literal, SatEntry};

/// Whether literals ascend, and each bound is a value of its variable's domain.
pub(crate) fn is_lemma(domains: &[VarDomain], lemma: &[Literal]) -> bool
    ensures { IsTrue result ↔ IsLemma domains.now lemma.now }
{
    ascends(lemma) && have_bounds(domains, lemma)
}

/// Whether each bound is a value of its variable's domain.
fn have_bounds(domains: &[VarDomain], lemma: &[Literal]) -> bool
    ensures { IsTrue result ↔ All (λ l. IsTrue (has_value (domain_of domains.now l.var) l.bound)) lemma.now }
{
    for literal in lemma {
        if !has_bound(domains, *literal) {
            return false;
        }
    }
    true
}

/// Whether each literal stands before the next.
fn ascends(lemma: &[Literal]) -> bool
    ensures { IsTrue result ↔ Ascends lemma.now }
{
    for i in 1..lemma.len() {
        if !precedes(lemma[i - 1], lemma[i]) {
            return false;
        }
    }
    true
}

/// Whether one literal stands before another.
fn precedes(first: Literal, second: Literal) -> bool
    ensures { IsTrue result ↔ Precedes first second }
{
    first.var < second.var || (first.var == second.var && !first.above && second.above)
}

/// The lemma of an entry.
pub(crate) fn lemma_of(entry: &SatEntry) -> &[Literal]
    ensures { result.now ≡ lemma_of entry.now }
{
    match entry {
        SatEntry::FromConstraint { lemma, .. } => lemma.as_slice(),
        SatEntry::Learned { lemma, .. } => lemma.as_slice(),
    }
}

/// Whether none of the entries has this lemma.
pub(crate) fn is_new(entries: &[SatEntry], lemma: &[Literal]) -> bool
    ensures { IsTrue result ↔ IsNew entries.now lemma.now }
{
    for i in 0..entries.len() {
        if is_same(lemma_of(&entries[i]), lemma) {
            return false;
        }
    }
    true
}

/// Whether two lemmas are one.
fn is_same(first: &[Literal], second: &[Literal]) -> bool
    ensures { IsTrue result ↔ (first.now ≡ second.now) }
{
    if first.len() != second.len() {
        return false;
    }
    for i in 0..first.len() {
        if !is_equal(first[i], second[i]) {
            return false;
        }
    }
    true
}

/// Whether two literals are one.
fn is_equal(first: Literal, second: Literal) -> bool
    ensures { IsTrue result ↔ (first ≡ second) }
{
    first.var == second.var && first.bound == second.bound && first.above == second.above
}
