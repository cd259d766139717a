//! Whether literals are a lemma over domains.
ghost use Rattle.std.specs.Prelude.{◌↔◌, IsTrue, All};
ghost use Rattle.pi_constraints.specs.Domain.{has_value};
ghost use Rattle.pi_sat_spec.specs.Literals.{Precedes, Ascends};
ghost use Rattle.pi_sat_spec.specs.Domains.{domain_of, IsLemma};

use crate::lookup::has_bound;
use pi_constraints::VarDomain;
use pi_sat_spec::Literal;

/// Whether literals ascend, and each bound is a value of its variable's domain.
pub(crate) fn is_lemma(domains: &[VarDomain], lemma: &[Literal]) -> bool
    ensures { IsTrue result ↔ IsLemma domains.now lemma.now }
{
    ascends(lemma) && have_bounds(domains, lemma)
}

/// Whether each bound is a value of its variable's domain.
fn have_bounds(domains: &[VarDomain], lemma: &[Literal]) -> bool
    ensures { IsTrue result ↔ All (λ l. IsTrue (has_value (domain_of domains.now l.var) l.bound)) lemma.now }
{
    for literal in lemma {
        if !has_bound(domains, *literal) {
            return false;
        }
    }
    true
}

/// Whether each literal stands before the next.
fn ascends(lemma: &[Literal]) -> bool
    ensures { IsTrue result ↔ Ascends lemma.now }
{
    for i in 1..lemma.len() {
        if !precedes(lemma[i - 1], lemma[i]) {
            return false;
        }
    }
    true
}

/// Whether one literal stands before another.
fn precedes(first: Literal, second: Literal) -> bool
    ensures { IsTrue result ↔ Precedes first second }
{
    first.var < second.var || (first.var == second.var && !first.above && second.above)
}
