//! The terms of faults.
ghost use Rattle.std.specs.Prelude.{◌≡◌, pos, codes, IfOk};
ghost use Rattle.pi_terms.specs.Tree.{Tree, atom, int, comp, no_trees, tree};
ghost use Rattle.pi_constraints.specs.Value.{IsAcyclic, value};
ghost use Rattle.pi_constraints.specs.State.{bindings};
ghost use Rattle.pi_constraints.specs.Store.{IsTerm};
ghost use Rattle.pi_effects.specs.Exception.{thrown, exception_with, type_error};
ghost use Rattle.pi_effects.specs.Integers.{fault_term};
ghost use Rattle.pi_effects.specs.Balls.{kind_name, IsBall};
ghost use Rattle.pi_effects.specs.Reads.{IsCopied};

use crate::arith_fault::ArithFault;
use crate::fault::{Fault, Kind};
use pi_constraints::{ReadStop, Ref, StateStore};
use pi_terms::Term;
use std::alloc::{AllocError, Global};

/// The term that a fault raises: what it tells is copied, with variables numbered from 0 on. A copy past 16,777,216 cells
/// is told as `term_too_large`. A User's Guide to Picat, 'Exceptions'; the numbers and the limit are own.
pub fn ball_of<S: StateStore>(alloc: Global, s: &S, fault: Fault) -> Result<Term, AllocError>
    ensures { IfOk result (λ made. (ball : Tree) → IsAcyclic (bindings (S.seen s.now).now.state) →
        IsBall (S.seen s.now) fault ball → made ≡ ball) }
{
    match fault {
        Fault::WrongKind(kind, term) => Ok(wrong_kind(alloc, s, kind, term)?),
        Fault::BadIndex(term) => Ok(exception(alloc, s, "bad_index", term)?),
        Fault::NoFirst => Ok(no_first(alloc)?),
        Fault::BadFormat(term) => Ok(exception(alloc, s, "bad_format", term)?),
        Fault::BadRange => Ok(Term::atom(alloc, "bad_range")?),
        Fault::RangeTooLong => Ok(Term::atom(alloc, "range_too_long")?),
        Fault::TermTooLarge => Ok(too_large(alloc)?),
        Fault::Arithmetic(fault) => Ok(arithmetic(alloc, fault)?),
        Fault::NotAConstraint(term) => Ok(exception(alloc, s, "not_a_constraint", term)?),
        Fault::BadOption(term) => Ok(exception(alloc, s, "bad_option", term)?),
        Fault::ConstraintTooLarge => Ok(Term::atom(alloc, "constraint_too_large")?),
        Fault::DomainTooWide => Ok(Term::atom(alloc, "domain_too_wide")?),
        Fault::Thrown(term) => Ok(thrown_term(alloc, s, term)?),
    }
}

/// What `throw` raises.
fn thrown_term<S: StateStore>(alloc: Global, s: &S, term: Ref) -> Result<Term, AllocError>
    ensures { IfOk result (λ made. (t : Tree) → IsAcyclic (bindings (S.seen s.now).now.state) → IsTerm (S.seen s.now) term t →
        made ≡ thrown t (S.seen s.now).now.state) }
{
    match copied(alloc, s, term)? {
        Some(copy) => Ok(copy),
        None => Ok(too_large(alloc)?),
    }
}

/// The exception of a name that tells a term.
fn exception<S: StateStore>(alloc: Global, s: &S, name: &str, term: Ref) -> Result<Term, AllocError>
    ensures { IfOk result (λ made. (t : Tree) → IsAcyclic (bindings (S.seen s.now).now.state) → IsTerm (S.seen s.now) term t →
        made ≡ exception_with name.now t (S.seen s.now).now.state) }
{
    match copied(alloc, s, term)? {
        Some(copy) => Ok(Term::comp(alloc, name, &[copy])?),
        None => Ok(too_large(alloc)?),
    }
}

/// `type_error`: what the argument has to be, and the argument.
fn wrong_kind<S: StateStore>(
    alloc: Global,
    s: &S,
    kind: Kind,
    term: Ref,
) -> Result<Term, AllocError>
    ensures { IfOk result (λ made. (t : Tree) → IsAcyclic (bindings (S.seen s.now).now.state) → IsTerm (S.seen s.now) term t →
        made ≡ type_error (kind_name kind) t (S.seen s.now).now.state) }
{
    match copied(alloc, s, term)? {
        Some(copy) => {
            let kind = Term::atom(alloc, name_of(kind))?;
            Ok(Term::comp(alloc, "type_error", &[kind, copy])?)
        }
        None => Ok(too_large(alloc)?),
    }
}

/// `bad_index(1)`.
fn no_first(alloc: Global) -> Result<Term, AllocError>
    ensures { IfOk result (λ made. made ≡ comp (codes "bad_index") (tree (int (pos 1)) no_trees)) }
{
    let one = Term::int(alloc, 1)?;
    Ok(Term::comp(alloc, "bad_index", &[one])?)
}

/// The name of a kind.
fn name_of(kind: Kind) -> &'static str
    ensures { result.now ≡ kind_name kind }
{
    match kind {
        Kind::Integer => "integer",
        Kind::ProperList => "list",
        Kind::Collection => "collection",
        Kind::Callable => "callable",
        Kind::Pair => "array",
        Kind::Domain => "domain",
    }
}

/// What a fault of arithmetic raises.
fn arithmetic(alloc: Global, fault: ArithFault) -> Result<Term, AllocError>
    ensures { IfOk result (λ made. made ≡ fault_term fault) }
{
    match fault {
        ArithFault::Overflow => Ok(Term::atom(alloc, "integer_overflow")?),
        ArithFault::ZeroDivisor => Ok(Term::atom(alloc, "zero_divisor")?),
        ArithFault::NegativeExponent => Ok(Term::atom(alloc, "negative_exponent")?),
        ArithFault::BadShift => Ok(Term::atom(alloc, "bad_shift")?),
    }
}

/// What is raised in place of a term that is too large.
fn too_large(alloc: Global) -> Result<Term, AllocError>
    ensures { IfOk result (λ made. made ≡ atom (codes "term_too_large")) }
{
    Ok(Term::atom(alloc, "term_too_large")?)
}

/// A copy of a term outside of the store, with variables from 0 on; None exactly where it has more than 16,777,216 cells.
fn copied<S: StateStore>(alloc: Global, s: &S, term: Ref) -> Result<Option<Term>, AllocError>
    ensures { IfOk result (λ made. (t : Tree) → IsAcyclic (bindings (S.seen s.now).now.state) → IsTerm (S.seen s.now) term t →
        IsCopied (value (bindings (S.seen s.now).now.state) t) made) }
{
    match s.read_term(alloc, term) {
        Ok(read) => Ok(Some(read.renumbered(alloc)?)),
        Err(ReadStop::TooLarge) => Ok(None),
        Err(ReadStop::Memory) => Err(AllocError),
    }
}
