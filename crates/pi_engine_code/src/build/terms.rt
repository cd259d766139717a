//! Terms of goals as operands.
ghost use Rattle.std.specs.Prelude.{◌≡◌, ◌+◌, List, IfOk, IsTrue, length};
ghost use Rattle.pi_terms.specs.Tree.{Tree, cells, subterms, ShowsHead};
ghost use Rattle.pi_terms.specs.Variables.{IsGround};
ghost use Rattle.pi_constraints.specs.Store.{Keeps, Stays};
ghost use Rattle.pi_core.specs.declared.core_program.CorePred.{CorePred};
ghost use Rattle.pi_engine_code.specs.Laid.{Longer, tables_for, AddsParts, IsPartOf, PartsAt, IsOperand};

use super::short;
use crate::code::{Code, Operand, Part};
use pi_constraints::StateStore;
use pi_terms::{Term, TermHead, Text};
use pi_unify::place;
use std::alloc::{AllocError, Global};

/// A term as an operand. A ground one is put into the store.
pub fn operand_of<S: StateStore>(
    alloc: Global,
    code: &mut Code<'_>,
    store: &mut S,
    term: &Term,
) -> Result<Operand, AllocError>
    ensures keeps { Keeps (S.seen store.old) (S.seen store.new) }
    ensures adds { IfOk result (λ _. AddsParts (S.seen store.old) (S.seen store.new) code.old code.new) }
    ensures is { IfOk result (λ operand. (preds : List CorePred) →
        IsOperand (tables_for preds (S.seen store.new).now.terms code.new) term.now operand) }
{
    if let TermHead::Var(k) = term.head() {
        return Ok(Operand::Slot(slot_of(k)?));
    }
    if is_ground(term) {
        return Ok(Operand::Known(place(alloc, store, term)?));
    }
    let first = short(code.parts.len())?;
    add_parts(alloc, code, store, term)?;
    Ok(Operand::Made(first, short(code.parts.len())?))
}

/// Adds the cells of a term as parts.
fn add_parts<S: StateStore>(
    alloc: Global,
    code: &mut Code<'_>,
    store: &mut S,
    term: &Term,
) -> Result<(), AllocError>
    ensures keeps { Keeps (S.seen store.old) (S.seen store.new) }
    ensures adds { IfOk result (λ _. AddsParts (S.seen store.old) (S.seen store.new) code.old code.new) }
    ensures long { IfOk result (λ _. length code.new.parts.items ≡ length code.old.parts.items + cells term.now) }
    ensures are { IfOk result (λ _. (preds : List CorePred) →
        PartsAt (tables_for preds (S.seen store.new).now.terms code.new) (length code.old.parts.items) (subterms term.now)) }
{
    for i in 0..term.cells() {
        let part = part_of(alloc, &mut code.names, store, term.head_at(i))?;
        code.parts.push(part)?;
    }
    Ok(())
}

fn part_of<S: StateStore>(
    alloc: Global,
    names: &mut Vec<Text>,
    store: &mut S,
    head: TermHead<'_>,
) -> Result<Part, AllocError>
    ensures stays { Stays (S.seen store.old) (S.seen store.new) }
    ensures names { Longer names.old.items names.new.items }
    ensures is { IfOk result (λ part. (u : Tree) → ShowsHead u head.entry → IsPartOf (S.seen store.new).now.terms names.new.items u part) }
{
    match head {
        TermHead::Var(k) => Ok(Part::Slot(slot_of(k)?)),
        TermHead::Int(n) => Ok(Part::Known(store.put_int(n)?)),
        TermHead::Atom(name) => Ok(Part::Known(store.put_atom(name)?)),
        TermHead::Comp(name, count) => {
            let number = short(names.len())?;
            names.push(Text::new(alloc, name)?)?;
            Ok(Part::Compound(number, short(count)?))
        }
    }
}

/// A slot's number, which has 32 bits.
fn slot_of(k: u64) -> Result<u32, AllocError>
    ensures { IfOk result (λ slot. slot ≡ k) }
{
    u32::try_from(k).map_err(|_| AllocError)
}

/// Whether a term holds no variable.
fn is_ground(term: &Term) -> bool
    ensures { IsTrue result → IsGround term.now }
{
    for i in 0..term.cells() {
        if let TermHead::Var(_) = term.head_at(i) {
            return false;
        }
    }
    true
}
