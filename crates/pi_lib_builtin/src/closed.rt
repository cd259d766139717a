//! Whether a term holds no unbound variable.
ghost use Rattle.std.specs.Prelude.{◌≡◌, ℕ, List, Ok, IfOk};
ghost use Rattle.pi_terms.specs.Tree.{Tree, comp, args, arity};
ghost use Rattle.pi_constraints.specs.Value.{IsAcyclic};
ghost use Rattle.pi_constraints.specs.State.{bindings};
ghost use Rattle.pi_constraints.specs.Store.{IsTerm};
ghost use Rattle.pi_unify.specs.Terms.{HoldsNoCycle, IsGiven, value_of};
ghost use Rattle.pi_effects.specs.Kinds.{holds_no_variable};
ghost use Rattle.pi_effects.specs.Results.{ShowsSame};
ghost use Rattle.pi_lib_builtin.specs.Closed.{AreGiven, Leaves, IsLookedAt};

use pi_constraints::{Cell, Ref, StateStore};
use pi_effects::Stop;
use std::alloc::{AllocError, Global};

/// `ground`: whether no unbound variable is in the value of a term. What was made without variables is passed over. The stack
/// lies on the heap,
/// and a list, however long, leaves no more than two terms on it.
pub fn is_closed<S: StateStore>(alloc: Global, s: &S, a: Ref) -> Result<bool, Stop>
    ensures { (t : Tree) → IsAcyclic (bindings (S.seen s.now).now.state) → IsTerm (S.seen s.now) a t →
        ShowsSame (S.seen s.now) result (Ok (holds_no_variable (bindings (S.seen s.now).now.state) t)) }
{
    let mut left = Vec::new(alloc);
    left.push(a)?;
    for _ in 0..u64::MAX {
        let Some(at) = left.pop() else {
            return Ok(true);
        };
        let closed = look_at(s, at, &mut left)?;
        if !closed {
            return Ok(false);
        }
    }
    Err(Stop::Memory)
}

/// Looks at the root of a term, and leaves its arguments to be looked at; false where it is an unbound variable.
fn look_at<S: StateStore>(s: &S, at: Ref, left: &mut Vec<Ref>) -> Result<bool, AllocError>
    ensures { IfOk result (λ closed. HoldsNoCycle (S.seen s.now) → IsGiven (S.seen s.now) at →
        AreGiven (S.seen s.now) left.old.items → IsLookedAt (S.seen s.now) at left.old.items left.new.items closed) }
{
    if s.is_ground(at) {
        return Ok(true);
    }
    match s.look(at) {
        Cell::Var(_) => Ok(false),
        Cell::Comp(_, count) => {
            leave_arguments(s, at, count, left)?;
            Ok(true)
        }
        _ => Ok(true),
    }
}

/// Leaves the arguments of a compound to be looked at, the first one last.
fn leave_arguments<S: StateStore>(
    s: &S,
    at: Ref,
    count: u64,
    left: &mut Vec<Ref>,
) -> Result<(), AllocError>
    ensures { IfOk result (λ _. (name : List ℕ) → HoldsNoCycle (S.seen s.now) → IsGiven (S.seen s.now) at →
        value_of (S.seen s.now) at ≡ comp name (args (value_of (S.seen s.now) at)) → count ≡ arity (value_of (S.seen s.now) at) →
        AreGiven (S.seen s.now) left.old.items → Leaves (S.seen s.now) at left.old.items left.new.items) }
{
    for i in (0..count).rev() {
        left.push(s.arg(at, i))?;
    }
    Ok(())
}
