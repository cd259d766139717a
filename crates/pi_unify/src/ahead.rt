//! What a walk over terms leaves to be looked at: the arguments of compounds, each from one number on.
//!
//! The stack of a walk lies on the heap, its newest rest stands last, and the last argument of a compound leaves nothing
//! on it. The walk of a pattern keeps a stack of its own, since what bounds it are the pattern's nodes.
ghost use Rattle.std.specs.Prelude.{◌≡◌, IfOk};
ghost use Rattle.pi_constraints.specs.State.{IsState};
ghost use Rattle.pi_unify.specs.Terms.{HoldsNoCycle};
ghost use Rattle.pi_unify.specs.Rests.{with_after, with_all, TakesRest};
ghost use Rattle.pi_unify.specs.Ahead.{AreArgs, ArePairs};
ghost use Rattle.pi_unify.specs.Answers.{GivesArg, GivesPair};
ghost use Rattle.pi_unify.specs.Comparison.{AreRests, TakesPair};
ghost use Rattle.pi_unify.specs.Copying.{AreWalks, EntersNext};

use pi_constraints::{Ref, StateStore};
use std::alloc::AllocError;

/// The arguments of a compound, or of two that have as many, from one number on. At least one is left.
pub struct Rest<T> {
    of: T,
    next: u64,
    count: u64,
}

// By hand, since what is derived for a generic type is proved field by field.
impl<T: Copy> Clone for Rest<T> {
    ghost is_clone = { λ rest copied. copied ≡ rest };

    fn clone(&self) -> Result<Rest<T>, AllocError> {
        Ok(*self)
    }
}

impl<T: Copy> Copy for Rest<T> {}

/// Two terms of a store.
#[derive(Clone, Copy)]
pub struct RefPair {
    pub left: Ref,
    pub right: Ref,
}

/// Leaves so many arguments to be looked at, where there are any.
pub fn leave_all<T: Copy>(rests: &mut Vec<Rest<T>>, of: T, count: u64) -> Result<(), AllocError>
    ensures { IfOk result (λ _. rests.new.items ≡ with_all rests.old.items of count) }
{
    if count > 0 {
        rests.push(Rest { of, next: 0, count })?;
    }
    Ok(())
}

/// Takes the next term.
pub fn next_term<S: StateStore>(
    s: &S,
    rests: &mut Vec<Rest<Ref>>,
) -> Result<Option<Ref>, AllocError>
    ensures terms { IfOk result (λ next. IsState (S.seen s.now).now.state → AreArgs (S.seen s.now) rests.old.items →
        GivesArg (S.seen s.now) rests.old.items next rests.new.items) }
    ensures values { IfOk result (λ next. HoldsNoCycle (S.seen s.now) → AreWalks (S.seen s.now) rests.old.items →
        EntersNext (S.seen s.now) rests.old.items rests.new.items next) }
{
    match take_rest(rests)? {
        Some(rest) => Ok(Some(s.arg(rest.of, rest.next))),
        None => Ok(None),
    }
}

/// Takes the next two terms.
pub fn next_pair<S: StateStore>(
    s: &S,
    rests: &mut Vec<Rest<RefPair>>,
) -> Result<Option<RefPair>, AllocError>
    ensures terms { IfOk result (λ next. IsState (S.seen s.now).now.state → ArePairs (S.seen s.now) rests.old.items →
        GivesPair (S.seen s.now) rests.old.items next rests.new.items) }
    ensures values { IfOk result (λ next. HoldsNoCycle (S.seen s.now) → AreRests (S.seen s.now) rests.old.items →
        TakesPair (S.seen s.now) rests.old.items rests.new.items next) }
{
    match take_rest(rests)? {
        Some(rest) => Ok(Some(RefPair {
            left: s.arg(rest.of.left, rest.next),
            right: s.arg(rest.of.right, rest.next),
        })),
        None => Ok(None),
    }
}

/// Takes the newest rest off, and leaves what is behind its next argument. None exactly where nothing is left.
fn take_rest<T: Copy>(rests: &mut Vec<Rest<T>>) -> Result<Option<Rest<T>>, AllocError>
    ensures { IfOk result (λ taken. TakesRest rests.old.items rests.new.items taken) }
{
    let Some(rest) = rests.pop() else {
        return Ok(None);
    };
    leave_behind(rests, rest)?;
    Ok(Some(rest))
}

/// Leaves what is behind the next argument of a rest, where there is any.
fn leave_behind<T: Copy>(rests: &mut Vec<Rest<T>>, rest: Rest<T>) -> Result<(), AllocError>
    ensures { IfOk result (λ _. rests.new.items ≡ with_after rests.old.items rest) }
{
    let next = rest.next.saturating_add(1);
    if next < rest.count {
        rests.push(Rest {
            of: rest.of,
            next,
            count: rest.count,
        })?;
    }
    Ok(())
}
