//! Whether a log is right.
ghost use Rattle.std.specs.Prelude.{◌↔◌, IsTrue, IfOk};
ghost use Rattle.pi_sat_spec.specs.Solutions.{MaySearch};
ghost use Rattle.pi_sat_spec.specs.Logs.{AreRight, EndsEmpty, IsRightLog};

use crate::entries::{is_right, lemma_of};
use pi_constraints::{Constraint, Constraints, VarDomain, VarDomains};
use pi_sat_spec::{SatEntry, SatLog};
use std::alloc::{AllocError, Global};

/// Whether a log is right over these domains and constraints: each entry is right over those before it, and the last lemma is
/// empty.
pub fn check(
    alloc: Global,
    domains: &VarDomains,
    constraints: &Constraints,
    log: &SatLog,
) -> Result<bool, AllocError>
    requires { MaySearch domains.now constraints.now }
    ensures { IfOk result (λ right. IsTrue right ↔ IsRightLog domains.now constraints.now log.now) }
{
    let entries = log.as_slice();
    if !ends_empty(entries) {
        return Ok(false);
    }
    let right = are_right(alloc, domains.as_slice(), constraints.as_slice(), entries)?;
    Ok(right)
}

/// Whether the last lemma is there and is empty.
fn ends_empty(entries: &[SatEntry]) -> bool
    ensures { IsTrue result ↔ EndsEmpty entries.now }
{
    match entries.last() {
        None => false,
        Some(entry) => lemma_of(entry).is_empty(),
    }
}

/// Whether each entry is right over those before it.
fn are_right(
    alloc: Global,
    domains: &[VarDomain],
    constraints: &[Constraint],
    entries: &[SatEntry],
) -> Result<bool, AllocError>
    requires { MaySearch domains.now constraints.now }
    ensures { IfOk result (λ right. IsTrue right ↔ AreRight domains.now constraints.now entries.now) }
{
    for i in 0..entries.len() {
        if !is_right(alloc, domains, constraints, &entries[..i], &entries[i])? {
            return Ok(false);
        }
    }
    Ok(true)
}
