//! The name and the arguments of a term that is called.
ghost use Rattle.std.specs.Prelude.{◌≡◌, [], ◌++◌, drop, IfOk, IsSome};
ghost use Rattle.pi_terms.specs.Tree.{Tree, Trees, tree};
ghost use Rattle.pi_constraints.specs.State.{bindings, followed};
ghost use Rattle.pi_constraints.specs.Value.{IsAcyclic};
ghost use Rattle.pi_constraints.specs.Store.{IsTerm, AreTerms};
ghost use Rattle.pi_effects.specs.Items.{each_tree};
ghost use Rattle.pi_meaning.specs.Shared.Calls.{called_by};
ghost use Rattle.pi_engine_facts.specs.Called.{IsCalled, IsRoot, NamesAreDistinct};

use pi_constraints::{Cell, Ref, StateStore};
use std::alloc::AllocError;

/// The number of the name that the first of these terms calls, and into the room for them its arguments: its own, and
/// behind them the other terms. None where it is no atom and no compound.
pub fn take_called<S: StateStore>(
    store: &S,
    terms: &[Ref],
    args: &mut Vec<Ref>,
) -> Result<Option<u64>, AllocError>
    ensures distinct { IfOk result (λ name. IsSome name → NamesAreDistinct (S.seen store.now)) }
    ensures called { IfOk result (λ name. (t : Tree) (ts : Trees) → IsAcyclic (bindings (S.seen store.now).now.state) →
        AreTerms (S.seen store.now) terms.now (tree t ts) →
        IsCalled (S.seen store.now) name args.new.items
        (called_by (followed (bindings (S.seen store.now).now.state) t) (each_tree ts))) }
{
    args.clear();
    if terms.is_empty() {
        return Ok(None);
    }
    let name = take_root(store, terms[0], args)?;
    push_others(terms, args)?;
    Ok(name)
}

/// The number of the name at the root of a term, and into the empty room its arguments; None where it is no atom and no
/// compound.
fn take_root<S: StateStore>(
    store: &S,
    called: Ref,
    args: &mut Vec<Ref>,
) -> Result<Option<u64>, AllocError>
    ensures distinct { IfOk result (λ name. IsSome name → NamesAreDistinct (S.seen store.now)) }
    ensures root { IfOk result (λ name. (t : Tree) → args.old.items ≡ [] → IsAcyclic (bindings (S.seen store.now).now.state) →
        IsTerm (S.seen store.now) called t → IsRoot (S.seen store.now) name args.new.items
        (followed (bindings (S.seen store.now).now.state) t)) }
{
    match store.look(called) {
        Cell::Atom(name) => Ok(Some(name)),
        Cell::Comp(name, count) => {
            for i in 0..count {
                args.push(store.arg(called, i))?;
            }
            Ok(Some(name))
        }
        Cell::Var(_) => Ok(None),
        Cell::Int(_) => Ok(None),
    }
}

/// Pushes the terms behind the first one.
fn push_others(terms: &[Ref], args: &mut Vec<Ref>) -> Result<(), AllocError>
    ensures { IfOk result (λ _. args.new.items ≡ args.old.items ++ drop 1 terms.now) }
{
    for i in 1..terms.len() {
        args.push(terms[i])?;
    }
    Ok(())
}
