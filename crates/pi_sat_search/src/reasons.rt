//! Lemmas of single constraints: what their filters cut, and why.
ghost use Rattle.std.specs.Prelude.{◌≡◌, All};
ghost use Rattle.pi_constraints.specs.Constraint.{IsWithinLimits};
ghost use Rattle.pi_sat_spec.specs.declared.entry.SatEntry.{SatEntry};

use crate::building::{above, at_most, below_least, new_greatest, put, put_ends};
use crate::cuts::{cut, negated};
use crate::filtered::{have_none, left_at_places};
use crate::given::{Given, copied_domains};
use crate::lookup::place_of;
use crate::trail::{Ends, ends_at};
use pi_constraints::{Constraint, Domain, Item, VarDomain, cut_above, cut_below};
use pi_prop_filters::places;
use pi_sat_spec::{Lemma, Literal, SatEntry};
use std::alloc::{AllocError, Global};

/// What a filter tells.
#[derive(Clone, Copy)]
enum Told {
    /// It empties a place.
    Conflict,
    /// It implies a literal.
    Implied(Literal),
    /// It cuts no end.
    Nothing,
}

/// The entry that the filter of the constraint with this number asks for between the present ends; None where it cuts no end.
pub(crate) fn reason_of(
    given: &Given,
    ends: &[Ends],
    number: usize,
) -> Result<Option<SatEntry>, AllocError>
    requires { All IsWithinLimits given.now.constraints }
{
    let Some(constraint) = given.constraints.as_slice().get(number) else {
        return Ok(None);
    };
    let items = places(given.alloc, constraint)?;
    let whole = own_domains(given, items.as_slice())?;
    let present = between(given, whole.as_slice(), ends)?;
    let told = told_by(given, constraint, items.as_slice(), present.as_slice())?;
    if matches!(told, Told::Nothing) {
        return Ok(None);
    }
    let mut lemma = all_ends(given.alloc, whole.as_slice(), present.as_slice())?;
    if let Told::Implied(literal) = told {
        put(&mut lemma, literal)?;
    }
    let needed = only_needed(given.alloc, constraint, whole.as_slice(), lemma)?;
    Ok(Some(entry_of(needed, number)))
}

/// The entry of a lemma that follows from a constraint.
pub(crate) fn entry_of(lemma: Vec<Literal>, number: usize) -> SatEntry
    ensures { result ≡ SatEntry.FromConstraint lemma.items number }
{
    SatEntry::FromConstraint {
        lemma: Lemma::from_vec(lemma),
        constraint: number as u64,
    }
}

/// The given domains of the variables among items, each once.
fn own_domains(given: &Given, items: &[Item]) -> Result<Vec<VarDomain>, AllocError> {
    let mut whole = Vec::new(given.alloc);
    for item in items {
        if let Item::Var(var) = item {
            put_own(given, &mut whole, *var)?;
        }
    }
    Ok(whole)
}

/// Puts the given domain of a variable behind the others, where it isn't there yet.
fn put_own(given: &Given, whole: &mut Vec<VarDomain>, var: u64) -> Result<(), AllocError> {
    if place_of(whole.as_slice(), var).is_some() {
        return Ok(());
    }
    let domains = given.domains.as_slice();
    if let Some(place) = place_of(domains, var) {
        let domain = domains[place].domain.copy(given.alloc)?;
        whole.push(VarDomain { var, domain })?;
    }
    Ok(())
}

/// What the present ends leave of these domains.
fn between(
    given: &Given,
    whole: &[VarDomain],
    ends: &[Ends],
) -> Result<Vec<VarDomain>, AllocError> {
    let mut present = Vec::new(given.alloc);
    for one in whole {
        let domain = between_ends(given, one, ends)?;
        present.push(VarDomain {
            var: one.var,
            domain,
        })?;
    }
    Ok(present)
}

fn between_ends(given: &Given, one: &VarDomain, ends: &[Ends]) -> Result<Domain, AllocError> {
    let found = match place_of(given.domains.as_slice(), one.var) {
        None => None,
        Some(place) => ends_at(ends, place),
    };
    match found {
        None => one.domain.copy(given.alloc),
        Some(ends) => {
            let upper = cut_below(given.alloc, &one.domain, i128::from(ends.low))?;
            cut_above(given.alloc, &upper, i128::from(ends.high))
        }
    }
}

/// What the filter of a constraint tells of the present domains of its variables.
fn told_by(
    given: &Given,
    constraint: &Constraint,
    items: &[Item],
    present: &[VarDomain],
) -> Result<Told, AllocError>
    requires { IsWithinLimits constraint.now }
{
    let left = left_at_places(given.alloc, constraint, present)?;
    if have_none(left.as_slice()) {
        return Ok(Told::Conflict);
    }
    for k in 0..items.len() {
        if let Item::Var(var) = items[k] {
            if let Some(left) = left.as_slice().get(k) {
                if let Some(literal) = new_end(given, present, var, left)? {
                    return Ok(Told::Implied(literal));
                }
            }
        }
    }
    Ok(Told::Nothing)
}

/// The literal of an end that is cut, of what is left of a variable's domain.
fn new_end(
    given: &Given,
    present: &[VarDomain],
    var: u64,
    left: &Domain,
) -> Result<Option<Literal>, AllocError> {
    let Some(place) = place_of(present, var) else {
        return Ok(None);
    };
    let here = &present[place].domain;
    if let Some(below) = below_least(given.alloc, here, left)? {
        return Ok(Some(above(var, below)));
    }
    match new_greatest(here, left) {
        None => Ok(None),
        Some(greatest) => Ok(Some(at_most(var, greatest))),
    }
}

/// What says that one of the variables leaves its present values.
fn all_ends(
    alloc: Global,
    whole: &[VarDomain],
    present: &[VarDomain],
) -> Result<Vec<Literal>, AllocError> {
    let mut lemma = Vec::new(alloc);
    for i in 0..whole.len() {
        let given = &whole[i];
        if let Some(now) = present.get(i) {
            put_ends(alloc, &mut lemma, given.var, &given.domain, &now.domain)?;
        }
    }
    Ok(lemma)
}

/// The literals of a lemma without which the constraint's filter doesn't show it: each one is left out where it does.
fn only_needed(
    alloc: Global,
    constraint: &Constraint,
    whole: &[VarDomain],
    lemma: Vec<Literal>,
) -> Result<Vec<Literal>, AllocError>
    requires { IsWithinLimits constraint.now }
{
    let mut kept = lemma;
    for i in (0..kept.len()).rev() {
        let fewer = without(alloc, kept.as_slice(), i)?;
        if shows(alloc, constraint, whole, fewer.as_slice())? {
            kept = fewer;
        }
    }
    Ok(kept)
}

/// The literals but the one at a place.
fn without(alloc: Global, lemma: &[Literal], i: usize) -> Result<Vec<Literal>, AllocError> {
    let mut fewer = Vec::new(alloc);
    for k in 0..lemma.len() {
        if k != i {
            fewer.push(lemma[k])?;
        }
    }
    Ok(fewer)
}

/// Whether a constraint's filter shows a lemma, over the given domains of its variables.
fn shows(
    alloc: Global,
    constraint: &Constraint,
    whole: &[VarDomain],
    lemma: &[Literal],
) -> Result<bool, AllocError>
    requires { IsWithinLimits constraint.now }
{
    let mut present = copied_domains(alloc, whole)?;
    for literal in lemma {
        cut(alloc, &mut present, negated(*literal))?;
    }
    let left = left_at_places(alloc, constraint, present.as_slice())?;
    Ok(have_none(left.as_slice()))
}
