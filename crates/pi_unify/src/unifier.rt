//! Unification of two terms.
ghost use Rattle.std.specs.Prelude.{◌≡◌, ℕ, ◌∷◌, [], IfOk};
ghost use Rattle.pi_terms.specs.Tree.{Tree};
ghost use Rattle.pi_constraints.specs.State.{IsState, SpeaksBelow, next};
ghost use Rattle.pi_constraints.specs.Store.{StoreView, IsTerm, Keeps};
ghost use Rattle.pi_constraints.specs.Unify.{unified, all_unified, pairs_ahead};
ghost use Rattle.pi_unify.specs.Ahead.{ArePairs, IsNextPair, pairs_on, pair_and};
ghost use Rattle.pi_unify.specs.Answers.{Answers, Steps, GoesOn};

use crate::ahead::{RefPair, Rest, leave_all, next_pair};
use crate::roots::{Roots, unify_roots};
use pi_constraints::{Ref, StateStore};
use std::alloc::{AllocError, Global};

/// What a pair leaves: the answer, or the pair that comes next.
#[derive(Clone, Copy)]
enum Step {
    Done(bool),
    Next(Ref, Ref),
}

/// Makes two terms equal; false exactly where they can't be. Of two variables the one with the higher number is bound to
/// the other, which gets their common values. After false or a refusal some of the bindings may stand.
pub fn unify<S: StateStore>(alloc: Global, s: &mut S, a: Ref, b: Ref) -> Result<bool, AllocError>
    ensures keeps { Keeps (S.seen s.old) (S.seen s.new) }
    ensures unifies { IfOk result (λ one. (t u : Tree) → IsState (S.seen s.old).now.state → IsTerm (S.seen s.old) a t →
        IsTerm (S.seen s.old) b u → SpeaksBelow (next (S.seen s.old).now.state) t → SpeaksBelow (next (S.seen s.old).now.state) u →
        Answers (unified (S.seen s.old).now.state t u) one (S.seen s.new).now.state) }
    ensures state { IfOk result (λ _. (t u : Tree) → IsState (S.seen s.old).now.state → IsTerm (S.seen s.old) a t →
        IsTerm (S.seen s.old) b u → SpeaksBelow (next (S.seen s.old).now.state) t → SpeaksBelow (next (S.seen s.old).now.state) u →
        IsState (S.seen s.new).now.state) }
{
    let mut ahead = Vec::new(alloc);
    let mut left = a;
    let mut right = b;
    for _ in 0..u64::MAX {
        match take_pair(alloc, s, left, right, &mut ahead)? {
            Step::Done(one) => return Ok(one),
            Step::Next(x, y) => {
                left = x;
                right = y;
            }
        }
    }
    Err(AllocError)
}

fn take_pair<S: StateStore>(
    alloc: Global,
    s: &mut S,
    a: Ref,
    b: Ref,
    ahead: &mut Vec<Rest<RefPair>>,
) -> Result<Step, AllocError>
    ensures keeps { Keeps (S.seen s.old) (S.seen s.new) }
    ensures steps { IfOk result (λ step. IsState (S.seen s.old).now.state → IsNextPair (S.seen s.old) a b ahead.old.items →
        Steps (S.seen s.old) (pair_and (S.seen s.old) a b ahead.old.items) step (S.seen s.new) ahead.new.items) }
    ensures state { IfOk result (λ _. IsState (S.seen s.old).now.state → IsNextPair (S.seen s.old) a b ahead.old.items →
        IsState (S.seen s.new).now.state) }
{
    match unify_roots(alloc, s, a, b)? {
        Roots::Clash => Ok(Step::Done(false)),
        Roots::Same => go_on(s, ahead),
        Roots::Args(count) => {
            leave_all(ahead, RefPair { left: a, right: b }, count)?;
            go_on(s, ahead)
        }
    }
}

fn go_on<S: StateStore>(s: &S, ahead: &mut Vec<Rest<RefPair>>) -> Result<Step, AllocError>
    ensures { IfOk result (λ step. IsState (S.seen s.now).now.state → ArePairs (S.seen s.now) ahead.old.items →
        GoesOn (S.seen s.now) (pairs_on (S.seen s.now) ahead.old.items []) step ahead.new.items) }
{
    match next_pair(s, ahead)? {
        Some(next) => Ok(Step::Next(next.left, next.right)),
        None => Ok(Step::Done(true)),
    }
}
