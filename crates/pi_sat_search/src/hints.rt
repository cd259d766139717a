//! What hinted lemmas lead to.
ghost use Rattle.std.specs.Prelude.{◌≡◌, ◌<◌, IfOk, All, List, [], ◌∷◌, ◌++◌, length};
ghost use Rattle.pi_sat_spec.specs.declared.literal.Literal.{Literal};
ghost use Rattle.pi_sat_spec.specs.Domains.{allowed};
ghost use Rattle.pi_sat_spec.specs.Logs.{leads_on};
ghost use Rattle.pi_sat_search.specs.LemmaStates.{ShowsState};

use crate::cuts::cut;
use crate::lemmas::lemma_of;
use crate::lookup::is_allowed;
use pi_constraints::VarDomain;
use pi_sat_spec::{Literal, SatEntry};
use std::alloc::{AllocError, Global};

/// What domains leave of a lemma: no literal, one, or more.
#[derive(Clone, Copy)]
pub(crate) enum LemmaState {
    Refuted,
    Unit(Literal),
    Open,
}

/// Whether the hinted lemmas, in order, have just one literal each that the domains allow, which cuts them, until one has none.
pub(crate) fn leads_on(
    alloc: Global,
    earlier: &[SatEntry],
    present: &mut Vec<VarDomain>,
    hints: &[u64],
) -> Result<bool, AllocError>
    requires { All (λ h. h < length earlier.now) hints.now }
    ensures { IfOk result (λ led. led ≡ leads_on earlier.now present.old.items hints.now) }
{
    for hint in hints {
        let lemma = lemma_of(&earlier[*hint as usize]);
        match state_of(present.as_slice(), lemma) {
            LemmaState::Refuted => return Ok(true),
            LemmaState::Unit(literal) => cut(alloc, present, literal)?,
            LemmaState::Open => return Ok(false),
        }
    }
    Ok(false)
}

/// The literals of a lemma that the domains allow.
pub(crate) fn state_of(present: &[VarDomain], lemma: &[Literal]) -> LemmaState
    ensures { ShowsState result (allowed present.now lemma.now) }
{
    let mut found = LemmaState::Refuted;
    for literal in lemma {
        if is_allowed(present, *literal) {
            found = with(found, *literal);
        }
    }
    found
}

/// One more literal.
fn with(found: LemmaState, literal: Literal) -> LemmaState
    ensures { (ls : List Literal) → ShowsState found ls → ShowsState result (ls ++ literal ∷ []) }
{
    match found {
        LemmaState::Refuted => LemmaState::Unit(literal),
        _ => LemmaState::Open,
    }
}
