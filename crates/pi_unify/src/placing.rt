//! Terms that are put into a store with new variables.
ghost use Rattle.std.specs.Prelude.{◌≡◌, ◌≤◌, IfOk, OnErr, length};
ghost use Rattle.pi_terms.specs.Tree.{Tree, Trees, ShowsHead};
ghost use Rattle.pi_terms.specs.Variables.{variables};
ghost use Rattle.pi_terms.specs.Copy.{copy, renamed, new_variables};
ghost use Rattle.pi_constraints.specs.State.{next};
ghost use Rattle.pi_constraints.specs.Store.{Gives, IsTerm, Stays};
ghost use Rattle.pi_unify.specs.Copying.{with_variables, MakesSome, AreBuilt, IsReady, PutsNode, renumbered};

use crate::building::put_compound;
use crate::numbers::{make_variables, new_variable};
use pi_constraints::{Ref, StateStore};
use pi_terms::{Numbers, Term, TermHead};
use std::alloc::{AllocError, Global};

/// Puts a term into a store, with new plain variables in place of its own, numbered by first occurrence from the left.
/// Where that is refused some of the new variables may be made.
pub fn place<S: StateStore>(alloc: Global, s: &mut S, t: &Term) -> Result<Ref, AllocError>
    ensures ok { IfOk result (λ made. Gives (S.seen s.old) (S.seen s.new)
        (with_variables (new_variables t.now) (S.seen s.old).now.state) made (copy (next (S.seen s.old).now.state) t.now)) }
    ensures err { OnErr result (MakesSome (S.seen s.old) (S.seen s.new)) }
{
    let numbers = numbers_of(alloc, t)?;
    let placed = place_with(alloc, s, t, &numbers);
    drop(numbers);
    placed
}

/// The same, once the term's variables are known.
fn place_with<S: StateStore>(
    alloc: Global,
    s: &mut S,
    t: &Term,
    numbers: &Numbers,
) -> Result<Ref, AllocError>
    requires { numbers.now ≡ variables t.now }
    ensures ok { IfOk result (λ made. Gives (S.seen s.old) (S.seen s.new)
        (with_variables (new_variables t.now) (S.seen s.old).now.state) made (copy (next (S.seen s.old).now.state) t.now)) }
    ensures err { OnErr result (MakesSome (S.seen s.old) (S.seen s.new)) }
{
    make_variables(s, numbers.len())?;
    put_nodes(alloc, s, t, numbers)
}

/// Puts the nodes of a term from the last to the first, where the newest variables stand for its own, in order.
fn put_nodes<S: StateStore>(
    alloc: Global,
    s: &mut S,
    t: &Term,
    numbers: &Numbers,
) -> Result<Ref, AllocError>
    requires known { numbers.now ≡ variables t.now }
    requires made { length numbers.now ≤ next (S.seen s.old).now.state }
    ensures stays { Stays (S.seen s.old) (S.seen s.new) }
    ensures ok { IfOk result (λ made. IsTerm (S.seen s.new) made (renamed (renumbered (S.seen s.old).now.state numbers.now) t.now)) }
{
    let mut built = Vec::new(alloc);
    let mut i = t.cells();
    while i > 0 {
        i -= 1;
        let made = put_node(alloc, s, t.head_at(i), numbers, &mut built)?;
        built.push(made)?;
    }
    Ok(built[0])
}

/// The variables of a term, by first occurrence.
fn numbers_of(alloc: Global, t: &Term) -> Result<Numbers, AllocError>
    ensures { IfOk result (λ numbers. numbers ≡ variables t.now) }
{
    let mut numbers = Numbers::new(alloc);
    for i in 0..t.cells() {
        if let TermHead::Var(n) = t.head_at(i) {
            numbers.meet(n)?;
        }
    }
    Ok(numbers)
}

/// Puts a term by what it is at its root, once its arguments were put, the first one last. It takes them off.
fn put_node<S: StateStore>(
    alloc: Global,
    s: &mut S,
    head: TermHead<'_>,
    numbers: &Numbers,
    built: &mut Vec<Ref>,
) -> Result<Ref, AllocError>
    requires ready { IsReady numbers.now built.old.items head }
    requires made { length numbers.now ≤ next (S.seen s.old).now.state }
    ensures stays { Stays (S.seen s.old) (S.seen s.new) }
    ensures ok { IfOk result (λ made. (u : Tree) (ts : Trees) → ShowsHead u head.entry →
        AreBuilt (S.seen s.old) built.old.items ts → PutsNode (S.seen s.old) (S.seen s.new)
        (renumbered (S.seen s.old).now.state numbers.now) u built.old.items built.new.items made ts) }
{
    match head {
        TermHead::Var(n) => Ok(new_variable(s, numbers, n)),
        TermHead::Int(n) => s.put_int(n),
        TermHead::Atom(name) => s.put_atom(name),
        TermHead::Comp(name, count) => put_compound(alloc, s, name, count, built),
    }
}
