//! What a search was given.
ghost use Rattle.std.specs.Prelude.{◌≡◌, IfOk};

use pi_constraints::{Constraint, Constraints, VarDomain, VarDomains};
use std::alloc::{AllocError, Global};

/// The domains and constraints of a search, and its memory.
#[derive(Drop)]
pub(crate) struct Given {
    pub(crate) alloc: Global,
    pub(crate) domains: VarDomains,
    pub(crate) constraints: Constraints,
}

impl Given {
    /// Copies of domains and constraints.
    pub(crate) fn new(
        alloc: Global,
        domains: &VarDomains,
        constraints: &Constraints,
    ) -> Result<Given, AllocError>
        ensures { IfOk result (λ made. (made.domains ≡ domains.now) × (made.constraints ≡ constraints.now)) }
    {
        let domains = copied_domains(alloc, domains.as_slice())?;
        let constraints = copied_constraints(alloc, constraints.as_slice())?;
        Ok(Given {
            alloc,
            domains: VarDomains::from_vec(domains),
            constraints: Constraints::from_vec(constraints),
        })
    }
}

/// Other domains with the same values.
pub(crate) fn copied_domains(
    alloc: Global,
    domains: &[VarDomain],
) -> Result<Vec<VarDomain>, AllocError>
    ensures { IfOk result (λ made. made.items ≡ domains.now) }
{
    let mut all = Vec::new(alloc);
    for given in domains {
        let domain = given.domain.copy(alloc)?;
        all.push(VarDomain {
            var: given.var,
            domain,
        })?;
    }
    Ok(all)
}

/// Other constraints that say the same.
fn copied_constraints(
    alloc: Global,
    constraints: &[Constraint],
) -> Result<Vec<Constraint>, AllocError>
    ensures { IfOk result (λ made. made.items ≡ constraints.now) }
{
    let mut all = Vec::new(alloc);
    for given in constraints {
        let constraint = given.copy(alloc)?;
        all.push(constraint)?;
    }
    Ok(all)
}
