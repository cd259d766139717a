//! Unification of two terms as far as their roots go.
ghost use Rattle.std.specs.Prelude.{◌≡◌, ℕ, IfOk, if◌then◌else◌};
ghost use Rattle.pi_constraints.specs.State.{IsState, followed, bindings};
ghost use Rattle.pi_constraints.specs.Store.{StoreView, Keeps, ShowsCell, IsName};
ghost use Rattle.pi_constraints.specs.Unify.{outcome};
ghost use Rattle.pi_unify.specs.Refs.{root_of, IsVariable, AreTerms};
ghost use Rattle.pi_unify.specs.Answers.{Meets, Compares};

use crate::variables::{Variable, assign, join};
use pi_constraints::{Cell, Ref, StateStore};
use std::alloc::{AllocError, Global};

/// What a pair of terms comes to.
#[derive(Clone, Copy)]
pub(crate) enum Roots {
    /// They can't be one.
    Clash,
    /// They are one now.
    Same,
    /// They are one where their arguments are, so many of each.
    Args(u64),
}

/// Makes two terms equal as far as their roots go.
pub(crate) fn unify_roots<S: StateStore>(
    alloc: Global,
    s: &mut S,
    a: Ref,
    b: Ref,
) -> Result<Roots, AllocError>
    ensures keeps { Keeps (S.seen s.old) (S.seen s.new) }
    ensures meets { IfOk result (λ roots. AreTerms (S.seen s.old) a b →
        Meets (S.seen s.old).now.state (root_of (S.seen s.old) a) (root_of (S.seen s.old) b)
        (outcome (S.seen s.old).now.state (root_of (S.seen s.old) a) (root_of (S.seen s.old) b)) roots (S.seen s.new).now.state) }
    ensures clash { IfOk result (λ roots. roots ≡ Roots.Clash → (S.seen s.new).now.state ≡ (S.seen s.old).now.state) }
{
    let left = s.look(a);
    let right = s.look(b);
    match left {
        Cell::Var(m) => match right {
            Cell::Var(n) => {
                let x = Variable { at: a, number: m };
                let y = Variable { at: b, number: n };
                unify_variables(alloc, s, x, y)
            }
            _ => Ok(same_if(assign(alloc, s, Variable { at: a, number: m }, b)?)),
        },
        _ => match right {
            Cell::Var(n) => Ok(same_if(assign(alloc, s, Variable { at: b, number: n }, a)?)),
            _ => Ok(compared(left, right)),
        },
    }
}

fn unify_variables<S: StateStore>(
    alloc: Global,
    s: &mut S,
    x: Variable,
    y: Variable,
) -> Result<Roots, AllocError>
    ensures keeps { Keeps (S.seen s.old) (S.seen s.new) }
    ensures meets { IfOk result (λ roots. IsState (S.seen s.old).now.state → IsVariable (S.seen s.old) x →
        IsVariable (S.seen s.old) y → Meets (S.seen s.old).now.state (root_of (S.seen s.old) x.at) (root_of (S.seen s.old) y.at)
        (outcome (S.seen s.old).now.state (root_of (S.seen s.old) x.at) (root_of (S.seen s.old) y.at)) roots
        (S.seen s.new).now.state) }
    ensures clash { IfOk result (λ roots. roots ≡ Roots.Clash → (S.seen s.new).now.state ≡ (S.seen s.old).now.state) }
{
    if x.number == y.number {
        return Ok(Roots::Same);
    }
    if x.number < y.number {
        Ok(same_if(join(alloc, s, x, y)?))
    } else {
        Ok(same_if(join(alloc, s, y, x)?))
    }
}

fn same_if(one: bool) -> Roots
    ensures { result ≡ (if one then Roots.Same else Roots.Clash) }
{
    if one { Roots::Same } else { Roots::Clash }
}

/// Two terms that are no variables.
fn compared(one: Cell, other: Cell) -> Roots
    ensures { Compares one other result }
{
    if one != other {
        return Roots::Clash;
    }
    match one {
        Cell::Comp(_, 0) => Roots::Same,
        Cell::Comp(_, count) => Roots::Args(count),
        _ => Roots::Same,
    }
}
