//! What hinted lemmas lead to.
ghost use Rattle.std.specs.Prelude.{◌≡◌, ◌<◌, IfOk, All, List, [], ◌∷◌, ◌++◌, length};
ghost use Rattle.pi_sat_spec.specs.declared.literal.Literal.{Literal};
ghost use Rattle.pi_sat_spec.specs.Domains.{allowed};
ghost use Rattle.pi_sat_spec.specs.Logs.{leads_on};
ghost use Rattle.pi_sat_check.specs.Allowed.{ShowsAllowed};

use crate::cuts::cut;
use crate::entries::lemma_of;
use crate::lookup::is_allowed;
use pi_constraints::VarDomain;
use pi_sat_spec::{Literal, SatEntry};
use std::alloc::{AllocError, Global};

/// The literals of a lemma that domains allow.
#[derive(Clone, Copy)]
pub(crate) enum Found {
    Nothing,
    One(Literal),
    More,
}

/// Whether the hinted lemmas, in order, have just one literal each that the domains allow, which cuts them, until one has none.
pub(crate) fn leads_on(
    alloc: Global,
    earlier: &[SatEntry],
    present: &mut Vec<VarDomain>,
    hints: &[u64],
) -> Result<bool, AllocError>
    requires { All (λ h. h < length earlier.now) hints.now }
    ensures { IfOk result (λ led. led ≡ leads_on earlier.now present.old.items hints.now) }
{
    for hint in hints {
        let lemma = lemma_of(&earlier[*hint as usize]);
        match allowed(present.as_slice(), lemma) {
            Found::Nothing => return Ok(true),
            Found::One(literal) => cut(alloc, present, literal)?,
            Found::More => return Ok(false),
        }
    }
    Ok(false)
}

/// The literals of a lemma that the domains allow.
fn allowed(present: &[VarDomain], lemma: &[Literal]) -> Found
    ensures { ShowsAllowed result (allowed present.now lemma.now) }
{
    let mut found = Found::Nothing;
    for literal in lemma {
        if is_allowed(present, *literal) {
            found = with(found, *literal);
        }
    }
    found
}

/// One more literal.
fn with(found: Found, literal: Literal) -> Found
    ensures { (ls : List Literal) → ShowsAllowed found ls → ShowsAllowed result (ls ++ literal ∷ []) }
{
    match found {
        Found::Nothing => Found::One(literal),
        _ => Found::More,
    }
}
