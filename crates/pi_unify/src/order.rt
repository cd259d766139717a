//! The standard order.
ghost use Rattle.std.specs.Prelude.{◌≡◌, ℕ, List, IfOk};
ghost use Rattle.pi_terms.specs.Tree.{Tree};
ghost use Rattle.pi_terms.specs.Order.{order, name_order};
ghost use Rattle.pi_constraints.specs.Value.{value};
ghost use Rattle.pi_constraints.specs.State.{bindings};
ghost use Rattle.pi_constraints.specs.Store.{IsTerm, IsName};
ghost use Rattle.pi_unify.specs.Terms.{HoldsNoCycle};
ghost use Rattle.pi_unify.specs.Comparison.{cell_arity, Begins};

use crate::ahead::{RefPair, leave_all, next_pair};
use pi_constraints::{Cell, Ref, StateStore};
use std::alloc::{AllocError, Global};
use std::cmp::Ordering;

/// How the values of two terms stand in the standard order. Its stack lies on the heap, and the last argument of a
/// compound leaves nothing on it.
pub fn compare<S: StateStore>(alloc: Global, s: &S, a: Ref, b: Ref) -> Result<Ordering, AllocError>
    ensures { IfOk result (λ found. (t u : Tree) → IsTerm (S.seen s.now) a t → IsTerm (S.seen s.now) b u →
        HoldsNoCycle (S.seen s.now) → found ≡ order (value (bindings (S.seen s.now).now.state) t)
        (value (bindings (S.seen s.now).now.state) u)) }
{
    let mut rests = Vec::new(alloc);
    let mut pair = RefPair { left: a, right: b };
    for _ in 0..u64::MAX {
        let cell = s.look(pair.left);
        let order = order_at_root(s, cell, s.look(pair.right));
        if order.is_ne() {
            return Ok(order);
        }
        leave_all(&mut rests, pair, argument_count(cell))?;
        match next_pair(s, &mut rests)? {
            Some(next) => pair = next,
            None => return Ok(Ordering::Equal),
        }
    }
    Err(AllocError)
}

/// How two terms compare at their roots: by kind, then by what they are there. Compounds of one name and one number of
/// arguments are equal there.
fn order_at_root<S: StateStore>(s: &S, left: Cell, right: Cell) -> Ordering
    ensures { Begins (S.seen s.now) left right result }
{
    match left {
        Cell::Var(m) => match right {
            Cell::Var(n) => m.cmp(&n),
            _ => Ordering::Less,
        },
        Cell::Int(m) => match right {
            Cell::Var(_) => Ordering::Greater,
            Cell::Int(n) => m.cmp(&n),
            _ => Ordering::Less,
        },
        Cell::Atom(j) => match right {
            Cell::Atom(k) => order_of_names(s, j, k),
            Cell::Comp(_, _) => Ordering::Less,
            _ => Ordering::Greater,
        },
        Cell::Comp(j, m) => match right {
            Cell::Comp(k, n) => m.cmp(&n).then(order_of_names(s, j, k)),
            _ => Ordering::Greater,
        },
    }
}

/// How two names of atoms stand in the order of their code points.
fn order_of_names<S: StateStore>(s: &S, j: u64, k: u64) -> Ordering
    ensures { (f g : List ℕ) → IsName (S.seen s.now) j f → IsName (S.seen s.now) k g → result ≡ name_order f g }
{
    if j == k {
        Ordering::Equal
    } else {
        s.name(j).cmp(s.name(k))
    }
}

/// How many arguments a term has that shows this at its root.
pub fn argument_count(cell: Cell) -> u64
    ensures { result ≡ cell_arity cell }
{
    match cell {
        Cell::Comp(_, count) => count,
        _ => 0,
    }
}
