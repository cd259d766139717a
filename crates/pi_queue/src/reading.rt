//! What the filter of a constraint reads in a store.
ghost use Rattle.std.specs.Prelude.{◌≡◌, IfOk, length, map};
ghost use Rattle.pi_constraints.specs.declared.constraint.Item.{Item};
ghost use Rattle.pi_constraints.specs.Domain.{IsWithinBounds};
ghost use Rattle.pi_settling.specs.Roots.{root_item};
ghost use Rattle.pi_constraints.specs.Value.{IsAcyclic};
ghost use Rattle.pi_constraints.specs.State.{bindings};
ghost use Rattle.pi_queue.specs.Reading.{IsRoot, AreRead};

use pi_constraints::{Cell, Item, MAX_VALUE, StateStore};
use std::alloc::{AllocError, Global};

/// What items come to.
pub(crate) fn roots<S: StateStore>(
    alloc: Global,
    s: &S,
    items: &[Item],
) -> Result<Vec<Item>, AllocError>
    ensures count { IfOk result (λ made. length made.items ≡ length items.now) }
    ensures roots { IfOk result (λ made. IsAcyclic (bindings (S.seen s.now).now.state) →
        AreRead (S.seen s.now).now.state items.now → made.items ≡ map (root_item (S.seen s.now).now.state) items.now) }
{
    let mut roots = Vec::new(alloc);
    for i in 0..items.len() {
        let root = root(s, items[i]);
        roots.push(root)?;
    }
    Ok(roots)
}

/// What an item comes to: the unbound variable or the integer behind its bindings.
fn root<S: StateStore>(s: &S, item: Item) -> Item
    ensures { IsAcyclic (bindings (S.seen s.now).now.state) →
        IsRoot (S.seen s.now).now.state (root_item (S.seen s.now).now.state item) →
        result ≡ root_item (S.seen s.now).now.state item }
{
    match item {
        Item::Int(_) => item,
        Item::Var(v) => root_of_variable(s, v),
    }
}

fn root_of_variable<S: StateStore>(s: &S, v: u64) -> Item
    ensures { IsAcyclic (bindings (S.seen s.now).now.state) →
        IsRoot (S.seen s.now).now.state (root_item (S.seen s.now).now.state (Item.Var v)) →
        result ≡ root_item (S.seen s.now).now.state (Item.Var v) }
{
    let at = s.var_ref(v);
    match s.look(at) {
        Cell::Var(n) => Item::Var(n),
        Cell::Int(n) => integer(n),
        Cell::Atom(_) => Item::Var(v),
        Cell::Comp(_, _) => Item::Var(v),
    }
}

/// An integer that a domain can have, as an item.
fn integer(n: i128) -> Item
    ensures { IsWithinBounds n → result ≡ Item.Int n }
{
    let bound = i128::from(MAX_VALUE);
    if n < -bound {
        return Item::Int(0);
    }
    if n > bound {
        return Item::Int(0);
    }
    Item::Int(n as i64)
}
