//! One step of the way down from the given domains.
ghost use Rattle.std.specs.Prelude.{◌≡◌, ◌↔◌, ◌<◌, IsTrue, IfOk, MatchOption, length, [], true, false};
ghost use Rattle.pi_sat_spec.specs.declared.entry.SatEntry.{SatEntry};
ghost use Rattle.pi_sat_spec.specs.Domains.{cut, allowed};
ghost use Rattle.pi_sat_spec.specs.Logs.{lemma_at};
ghost use Rattle.pi_sat_search.specs.Nodes.{MayGo, IsNode, IsPick, NoneRefuted, IsDown, IsPut};

use crate::building::{above, at_most};
use crate::cuts::cut;
use crate::given::{Given, copied_domains};
use crate::hints::{LemmaState, state_of};
use crate::learning::learned;
use crate::lemmas::lemma_of;
use crate::picks::Pick;
use pi_constraints::VarDomain;
use pi_sat_spec::{Literal, SatEntry};
use std::alloc::{AllocError, Global};

/// A place on the way down: the domains there, and the literals that say that one isn't there.
#[derive(Drop)]
pub(crate) struct Node {
    pub(crate) present: Vec<VarDomain>,
    pub(crate) lemma: Vec<Literal>,
}

/// One step down: to the least value of a variable, or where a lemma is refuted there to its other values. Where one is refuted there
/// too, both lead to one that says that the search isn't here.
pub(crate) fn go_down(
    given: &Given,
    entries: &[SatEntry],
    node: &mut Node,
    pick: Pick,
) -> Result<Option<SatEntry>, AllocError>
    requires may { MayGo given.now.domains given.now.constraints entries.now }
    requires node { IsNode given.now.domains entries.now node.old.present.items node.old.lemma.items }
    requires pick { IsPick node.old.present.items pick }
    ensures { IfOk result (λ came. IsDown given.now.domains given.now.constraints entries.now node.old.present.items node.new.present.items
        node.new.lemma.items came) }
{
    let (low, high) = (at_most(pick.var, pick.least), above(pick.var, pick.least));
    let left = with_cut(given.alloc, node.present.as_slice(), low)?;
    let Some(first) = refuted_by(entries, left.as_slice()) else {
        node.lemma.push(high)?;
        node.present = left;
        return Ok(None);
    };
    let right = with_cut(given.alloc, node.present.as_slice(), high)?;
    let Some(second) = refuted_by(entries, right.as_slice()) else {
        put_last(&mut node.lemma, low)?;
        node.present = right;
        return Ok(None);
    };
    let lemma = Vec::from_slice(given.alloc, node.lemma.as_slice())?;
    let hints = Vec::from_slice(given.alloc, &[first as u64, second as u64])?;
    Ok(Some(learned(lemma, hints)))
}

/// Other domains, cut by a literal.
fn with_cut(
    alloc: Global,
    present: &[VarDomain],
    literal: Literal,
) -> Result<Vec<VarDomain>, AllocError>
    ensures { IfOk result (λ made. made.items ≡ cut present.now literal) }
{
    let mut made = copied_domains(alloc, present)?;
    cut(alloc, &mut made, literal)?;
    Ok(made)
}

/// The number of the first entry whose lemma has no literal left; None where each has one.
pub(crate) fn refuted_by(entries: &[SatEntry], present: &[VarDomain]) -> Option<usize>
    ensures { MatchOption result (NoneRefuted present.now entries.now)
        (λ h. (h < length entries.now) × (allowed present.now (lemma_at entries.now h) ≡ [])) }
{
    for number in 0..entries.len() {
        if is_refuted(present, lemma_of(&entries[number])) {
            return Some(number);
        }
    }
    None
}

/// Whether a lemma has no literal left.
fn is_refuted(present: &[VarDomain], lemma: &[Literal]) -> bool
    ensures { IsTrue result ↔ (allowed present.now lemma.now ≡ []) }
{
    matches!(state_of(present, lemma), LemmaState::Refuted)
}

/// Puts a literal behind the others, in the place of the last one where that has the same variable.
fn put_last(lemma: &mut Vec<Literal>, literal: Literal) -> Result<(), AllocError>
    ensures { IfOk result (λ _. IsPut lemma.old.items literal lemma.new.items) }
{
    if let Some(last) = lemma.pop() {
        if last.var != literal.var {
            lemma.push(last)?;
        }
    }
    lemma.push(literal)?;
    Ok(())
}
