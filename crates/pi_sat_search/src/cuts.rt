//! Domains that literals cut.
ghost use Rattle.std.specs.Prelude.{◌≡◌, true, false, IfOk};
ghost use Rattle.pi_sat_spec.specs.Literals.{negated, left_by};
ghost use Rattle.pi_sat_spec.specs.Domains.{cut, refuted, has_empty, has_none};

use crate::given::copied_domains;
use crate::lookup::place_of;
use pi_constraints::{Domain, VarDomain, cut_above, cut_below};
use pi_sat_spec::Literal;
use std::alloc::{AllocError, Global};

/// The domains cut by the negation of each literal of a lemma.
pub(crate) fn refuted(
    alloc: Global,
    domains: &[VarDomain],
    lemma: &[Literal],
) -> Result<Vec<VarDomain>, AllocError>
    ensures { IfOk result (λ made. made.items ≡ refuted domains.now lemma.now) }
{
    let mut present = copied_domains(alloc, domains)?;
    for literal in lemma {
        cut(alloc, &mut present, negated(*literal))?;
    }
    Ok(present)
}

/// The literal that holds exactly where this one doesn't.
pub(crate) fn negated(literal: Literal) -> Literal
    ensures { result ≡ negated literal }
{
    Literal {
        var: literal.var,
        bound: literal.bound,
        above: !literal.above,
    }
}

/// Leaves the literal's variable the values that make it so.
pub(crate) fn cut(
    alloc: Global,
    present: &mut Vec<VarDomain>,
    literal: Literal,
) -> Result<(), AllocError>
    ensures { IfOk result (λ _. present.new.items ≡ cut present.old.items literal) }
{
    match place_of(present.as_slice(), literal.var) {
        None => Ok(()),
        Some(i) => {
            let domain = left_by(alloc, &present[i].domain, literal)?;
            present[i] = VarDomain {
                var: literal.var,
                domain,
            };
            Ok(())
        }
    }
}

/// The values of a domain that make a literal so.
pub(crate) fn left_by(
    alloc: Global,
    domain: &Domain,
    literal: Literal,
) -> Result<Domain, AllocError>
    ensures { IfOk result (λ made. made ≡ left_by literal domain.now) }
{
    if literal.above {
        left_above(alloc, domain, literal)
    } else {
        left_at_most(alloc, domain, literal)
    }
}

fn left_above(alloc: Global, domain: &Domain, literal: Literal) -> Result<Domain, AllocError>
    requires { literal.above ≡ true }
    ensures { IfOk result (λ made. made ≡ left_by literal domain.now) }
{
    let _given = domain.spans();
    let left = cut_below(alloc, domain, i128::from(literal.bound) + 1)?;
    let _kept = left.spans();
    Ok(left)
}

fn left_at_most(alloc: Global, domain: &Domain, literal: Literal) -> Result<Domain, AllocError>
    requires { literal.above ≡ false }
    ensures { IfOk result (λ made. made ≡ left_by literal domain.now) }
{
    let _given = domain.spans();
    let left = cut_above(alloc, domain, i128::from(literal.bound))?;
    let _kept = left.spans();
    Ok(left)
}

/// Whether a domain is empty.
pub(crate) fn has_empty(present: &[VarDomain]) -> bool
    ensures { result ≡ has_empty present.now }
{
    for one in present {
        if is_empty(&one.domain) {
            return true;
        }
    }
    false
}

/// Whether a domain has no value.
pub(crate) fn is_empty(domain: &Domain) -> bool
    ensures { result ≡ has_none domain.now }
{
    domain.spans().is_empty()
}
