//! Whether an entry is right over those before it.
ghost use Rattle.std.specs.Prelude.{◌≡◌, ◌<◌, ◌||◌, IsTrue, IfOk, All, Some, slice_get, length};
ghost use Rattle.pi_constraints.specs.declared.constraint.Constraint.{Constraint};
ghost use Rattle.pi_constraints.specs.Constraint.{IsWithinLimits};
ghost use Rattle.pi_sat_spec.specs.Domains.{refuted, has_empty};
ghost use Rattle.pi_sat_spec.specs.Logs.{leads_on, Refutes, IsRightEntry};

use crate::cuts::{has_empty, refuted};
use crate::filtered::refutes;
use crate::hints::leads_on;
use crate::lemmas::{is_lemma, lemma_of};
use pi_constraints::{Constraint, VarDomain};
use pi_sat_spec::{Literal, SatEntry};
use std::alloc::{AllocError, Global};

/// Whether an entry is right over those before it, as it is tested before it is kept.
pub(crate) fn is_right(
    alloc: Global,
    domains: &[VarDomain],
    constraints: &[Constraint],
    earlier: &[SatEntry],
    entry: &SatEntry,
) -> Result<bool, AllocError>
    requires { All IsWithinLimits constraints.now }
    ensures { IfOk result (λ right. IsTrue right → IsRightEntry domains.now constraints.now earlier.now entry.now) }
{
    if !is_lemma(domains, lemma_of(entry)) {
        return Ok(false);
    }
    match entry {
        SatEntry::FromConstraint { lemma, constraint } => {
            let right = follows(alloc, domains, constraints, lemma.as_slice(), *constraint)?;
            Ok(right)
        }
        SatEntry::Learned { lemma, hints } => {
            let right = is_learned(alloc, domains, earlier, lemma.as_slice(), hints.as_slice())?;
            Ok(right)
        }
    }
}

/// Whether a lemma follows from the constraint with this number.
fn follows(
    alloc: Global,
    domains: &[VarDomain],
    constraints: &[Constraint],
    lemma: &[Literal],
    number: u64,
) -> Result<bool, AllocError>
    requires { All IsWithinLimits constraints.now }
    ensures { IfOk result (λ right. IsTrue right →
        ((c : Constraint) × (slice_get constraints.now number ≡ Some c) × Refutes c (refuted domains.now lemma.now))) }
{
    match constraints.get(number as usize) {
        None => Ok(false),
        Some(constraint) => {
            let present = refuted(alloc, domains, lemma)?;
            let refuted = refutes(alloc, constraint, present.as_slice())?;
            Ok(refuted)
        }
    }
}

/// Whether a lemma follows from hinted lemmas.
fn is_learned(
    alloc: Global,
    domains: &[VarDomain],
    earlier: &[SatEntry],
    lemma: &[Literal],
    hints: &[u64],
) -> Result<bool, AllocError>
    ensures { IfOk result (λ right. IsTrue right → (All (λ h. h < length earlier.now) hints.now ×
        IsTrue (has_empty (refuted domains.now lemma.now) || leads_on earlier.now (refuted domains.now lemma.now) hints.now))) }
{
    if !hints.iter().all(|h| *h < earlier.len() as u64) {
        return Ok(false);
    }
    let mut present = refuted(alloc, domains, lemma)?;
    if has_empty(present.as_slice()) {
        return Ok(true);
    }
    let led = leads_on(alloc, earlier, &mut present, hints)?;
    Ok(led)
}
