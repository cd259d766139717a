//! Whether a variable occurs in a term.
ghost use Rattle.std.specs.Prelude.{◌≡◌, ℕ, ◌∷◌, true, false, IfOk};
ghost use Rattle.pi_terms.specs.Tree.{args, arity};
ghost use Rattle.pi_constraints.specs.Value.{value};
ghost use Rattle.pi_constraints.specs.State.{bindings, IsState};
ghost use Rattle.pi_constraints.specs.Unify.{does_occur};
ghost use Rattle.pi_unify.specs.Refs.{IsRef, term_of, root_of};
ghost use Rattle.pi_unify.specs.Ahead.{AreArgs, term_and, in_list, some_hold, HoldsNot};
ghost use Rattle.pi_unify.specs.Answers.{LooksFor, TakesArg};

use crate::ahead::{Rest, leave_all, next_term};
use pi_constraints::{Cell, Ref, StateStore};
use std::alloc::{AllocError, Global};

/// What a look at a term comes to.
#[derive(Clone, Copy)]
enum Look {
    Found,
    Done,
    Next(Ref),
}

/// Whether a variable occurs in a term, with bindings replaced throughout. A term in which no variable can be is passed
/// over, and the last argument of a compound leaves nothing on the stack.
pub(crate) fn occurs<S: StateStore>(
    alloc: Global,
    s: &S,
    v: u64,
    r: Ref,
) -> Result<bool, AllocError>
    ensures { IfOk result (λ found. IsState (S.seen s.now).now.state → IsRef (S.seen s.now) r →
        found ≡ does_occur v (value (bindings (S.seen s.now).now.state) (term_of (S.seen s.now) r))) }
{
    if is_apart(s, v, r) {
        return Ok(false);
    }
    let mut ahead = Vec::new(alloc);
    let mut at = r;
    for _ in 0..u64::MAX {
        match look_for(s, v, at, &mut ahead)? {
            Look::Found => return Ok(true),
            Look::Done => return Ok(false),
            Look::Next(next) => at = next,
        }
    }
    Err(AllocError)
}

/// Whether it is seen at once that a variable doesn't occur in a term: it is ground, or a compound of ground terms and other
/// variables, as most are that are made for a call.
fn is_apart<S: StateStore>(s: &S, v: u64, r: Ref) -> bool
    ensures { result ≡ true → IsState (S.seen s.now).now.state → IsRef (S.seen s.now) r → HoldsNot (S.seen s.now) v r }
{
    if s.is_ground(r) {
        return true;
    }
    match s.look(r) {
        Cell::Comp(_, count) => are_others(s, v, r, count),
        _ => false,
    }
}

/// Whether all arguments of a compound, so many, are ground terms and other variables.
fn are_others<S: StateStore>(s: &S, v: u64, of: Ref, count: u64) -> bool
    ensures { result ≡ true → IsState (S.seen s.now).now.state → IsRef (S.seen s.now) of →
        arity (root_of (S.seen s.now) of) ≡ count → some_hold (bindings (S.seen s.now).now.state) v
        (in_list (args (root_of (S.seen s.now) of))) ≡ false }
{
    for i in 0..count {
        if !is_another(s, v, s.arg(of, i)) {
            return false;
        }
    }
    true
}

/// Whether a term is ground or another variable, in which a variable can't occur.
fn is_another<S: StateStore>(s: &S, v: u64, r: Ref) -> bool
    ensures { result ≡ true → IsState (S.seen s.now).now.state → IsRef (S.seen s.now) r → HoldsNot (S.seen s.now) v r }
{
    if s.is_ground(r) {
        return true;
    }
    match s.look(r) {
        Cell::Var(n) => {
            if n == v {
                return false;
            }
            true
        }
        _ => false,
    }
}

fn look_for<S: StateStore>(
    s: &S,
    v: u64,
    at: Ref,
    ahead: &mut Vec<Rest<Ref>>,
) -> Result<Look, AllocError>
    ensures { IfOk result (λ look. IsState (S.seen s.now).now.state → IsRef (S.seen s.now) at →
        AreArgs (S.seen s.now) ahead.old.items → LooksFor (S.seen s.now) v
        (term_and (S.seen s.now) at ahead.old.items) look ahead.new.items) }
{
    if s.is_ground(at) {
        return next_arg(s, ahead);
    }
    match s.look(at) {
        Cell::Var(n) => {
            if n == v {
                return Ok(Look::Found);
            }
            next_arg(s, ahead)
        }
        Cell::Comp(_, count) => {
            leave_all(ahead, at, count)?;
            next_arg(s, ahead)
        }
        _ => next_arg(s, ahead),
    }
}

/// The argument that comes next.
fn next_arg<S: StateStore>(s: &S, ahead: &mut Vec<Rest<Ref>>) -> Result<Look, AllocError>
    ensures { IfOk result (λ look. IsState (S.seen s.now).now.state → AreArgs (S.seen s.now) ahead.old.items →
        TakesArg (S.seen s.now) ahead.old.items look ahead.new.items) }
{
    match next_term(s, ahead)? {
        Some(next) => Ok(Look::Next(next)),
        None => Ok(Look::Done),
    }
}
