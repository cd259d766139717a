//! One more lemma that is kept.
ghost use Rattle.std.specs.Prelude.{◌≡◌, IfOk, OnErr, All};
ghost use Rattle.pi_constraints.specs.Constraint.{IsWithinLimits};
ghost use Rattle.pi_sat_search.specs.Steps.{IsAppended};

use crate::entries::is_right;
use crate::given::Given;
use crate::lemmas::{is_new, lemma_of};
use pi_sat_spec::{SatEntry, SatLog};
use std::alloc::AllocError;

/// Appends an entry where it is right and its lemma isn't kept yet, and tells whether it did.
pub(crate) fn append(given: &Given, log: &mut SatLog, entry: SatEntry) -> Result<bool, AllocError>
    requires { All IsWithinLimits given.now.constraints }
    ensures taken { IfOk result (λ taken. IsAppended given.now.domains given.now.constraints log.old log.new taken) }
    ensures err { OnErr result (log.new ≡ log.old) }
{
    let kept = log.as_slice();
    if !is_new(kept, lemma_of(&entry)) {
        return Ok(false);
    }
    let (domains, constraints) = (given.domains.as_slice(), given.constraints.as_slice());
    if !is_right(given.alloc, domains, constraints, kept, &entry)? {
        return Ok(false);
    }
    log.push(entry)?;
    Ok(true)
}
