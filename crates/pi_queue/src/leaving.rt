//! What a filter leaves, taken by the items of its constraint.
ghost use Rattle.std.specs.Prelude.{◌≡◌, ◌==◌, ◌≤◌, IfOk, OnOk, OnErr, List, Some, length, unwrap_or};
ghost use Rattle.pi_terms.specs.Tree.{int};
ghost use Rattle.pi_constraints.specs.declared.constraint.Item.{Item};
ghost use Rattle.pi_constraints.specs.declared.constraint.Constraint.{Constraint};
ghost use Rattle.pi_constraints.specs.declared.domain.Span.{Span};
ghost use Rattle.pi_constraints.specs.Domain.{IsDomain, size_of};
ghost use Rattle.pi_settling.specs.Roots.{root_item};
ghost use Rattle.pi_constraints.specs.Store.{Keeps};
ghost use Rattle.pi_constraints.specs.State.{IsState, domain_of, with_binding, with_domain};
ghost use Rattle.pi_queue.specs.Changes.{AreTold};
ghost use Rattle.pi_queue.specs.Leaving.{IsWithin, IsLater, MayTake, Takes, MayLeave, LeavesAll, IsNarrower, lost_in, KeepsState};

use pi_constraints::{Cell, Domain, Item, StateStore, contains, meet, min, size};
use std::alloc::{AllocError, Global};

/// Leaves each item what is left at its place, where something is told of it, one after the other, and tells which variables
/// lost a value. False where an item is left nothing.
pub(crate) fn leave_all<S: StateStore>(
    alloc: Global,
    s: &mut S,
    roots: &[Item],
    told: &[Option<Domain>],
    lost: &mut Vec<u64>,
) -> Result<bool, AllocError>
    requires { length told.now ≡ length roots.now }
    ensures keeps { Keeps (S.seen s.old) (S.seen s.new) }
    ensures narrower { (c : Constraint) (before left : List (List Span)) → AreTold before told.now left →
        MayLeave (S.seen s.old).now.state c roots.now before left lost.old.items →
        IsNarrower (S.seen s.old).now.state (S.seen s.new).now.state }
    ensures leaves { IfOk result (λ some. (c : Constraint) (before left : List (List Span)) → AreTold before told.now left →
        MayLeave (S.seen s.old).now.state c roots.now before left lost.old.items →
        LeavesAll (S.seen s.old).now.state c some (S.seen s.new).now.state lost.new.items) }
{
    for k in 0..roots.len() {
        let some = leave(alloc, s, roots[k], &told[k], lost)?;
        if !some {
            return Ok(false);
        }
    }
    Ok(true)
}

/// Leaves an item what is told of its place. Where nothing is told, nothing is written or looked up.
fn leave<S: StateStore>(
    alloc: Global,
    s: &mut S,
    item: Item,
    told: &Option<Domain>,
    lost: &mut Vec<u64>,
) -> Result<bool, AllocError>
    ensures keeps { Keeps (S.seen s.old) (S.seen s.new) }
    ensures takes { IfOk result (λ some. (before left : List Span) → left ≡ unwrap_or told.now before →
        IsState (S.seen s.old).now.state → MayTake (S.seen s.old).now.state item before left →
        Takes left (lost_in (S.seen s.old) lost.old.items) (root_item (S.seen s.old).now.state item) some
        (lost_in (S.seen s.new) lost.new.items)) }
    ensures err { OnErr result (KeepsState (S.seen s.old) (S.seen s.new)) }
{
    match told {
        Some(left) => {
            let some = leave_item(alloc, s, item, left, lost)?;
            Ok(some)
        }
        None => Ok(true),
    }
}

/// Leaves an item the values that are left.
fn leave_item<S: StateStore>(
    alloc: Global,
    s: &mut S,
    item: Item,
    left: &Domain,
    lost: &mut Vec<u64>,
) -> Result<bool, AllocError>
    ensures keeps { Keeps (S.seen s.old) (S.seen s.new) }
    ensures takes { IfOk result (λ some. IsState (S.seen s.old).now.state → IsLater (S.seen s.old).now.state item →
        Takes left.now (lost_in (S.seen s.old) lost.old.items) (root_item (S.seen s.old).now.state item) some
        (lost_in (S.seen s.new) lost.new.items)) }
    ensures err { OnErr result (KeepsState (S.seen s.old) (S.seen s.new)) }
{
    match item {
        Item::Int(n) => Ok(contains(left, i128::from(n))),
        Item::Var(v) => {
            let some = leave_variable(alloc, s, v, left, lost)?;
            Ok(some)
        }
    }
}

/// Whether two domains have as many values.
fn have_one_size(d: &Domain, e: &Domain) -> bool
    ensures same { result ≡ (size_of d.now == size_of e.now) }
    ensures first { IsDomain d.now }
    ensures second { IsDomain e.now }
{
    let _first = d.spans();
    let _second = e.spans();
    size(d) == size(e)
}

/// Leaves a variable, taken anew through its bindings, the values that are left.
fn leave_variable<S: StateStore>(
    alloc: Global,
    s: &mut S,
    v: u64,
    left: &Domain,
    lost: &mut Vec<u64>,
) -> Result<bool, AllocError>
    ensures keeps { Keeps (S.seen s.old) (S.seen s.new) }
    ensures takes { IfOk result (λ some. IsState (S.seen s.old).now.state → IsLater (S.seen s.old).now.state (Item.Var v) →
        Takes left.now (lost_in (S.seen s.old) lost.old.items) (root_item (S.seen s.old).now.state (Item.Var v)) some
        (lost_in (S.seen s.new) lost.new.items)) }
    ensures err { OnErr result (KeepsState (S.seen s.old) (S.seen s.new)) }
{
    let at = s.var_ref(v);
    match s.look(at) {
        Cell::Int(n) => Ok(contains(left, n)),
        Cell::Var(_) => {
            let some = leave_unbound(alloc, s, v, left, lost)?;
            Ok(some)
        }
        Cell::Atom(_) => Ok(true),
        Cell::Comp(_, _) => Ok(true),
    }
}

/// Leaves an unbound variable the values that are left.
fn leave_unbound<S: StateStore>(
    alloc: Global,
    s: &mut S,
    v: u64,
    left: &Domain,
    lost: &mut Vec<u64>,
) -> Result<bool, AllocError>
    ensures keeps { Keeps (S.seen s.old) (S.seen s.new) }
    ensures takes { IfOk result (λ some. (d : List Span) → IsState (S.seen s.old).now.state →
        domain_of (S.seen s.old).now.state v ≡ Some d →
        Takes left.now (lost_in (S.seen s.old) lost.old.items) (Item.Var v) some (lost_in (S.seen s.new) lost.new.items)) }
    ensures err { OnErr result (KeepsState (S.seen s.old) (S.seen s.new)) }
{
    let at = s.var_ref(v);
    let found = s.domain(alloc, at)?;
    let Some(had) = found else {
        return Ok(true);
    };
    let kept = meet(alloc, &had, left)?;
    let some = keep(s, v, &had, &kept, lost)?;
    Ok(some)
}

/// Leaves a variable some of the values that it had.
fn keep<S: StateStore>(
    s: &mut S,
    v: u64,
    had: &Domain,
    kept: &Domain,
    lost: &mut Vec<u64>,
) -> Result<bool, AllocError>
    ensures keeps { Keeps (S.seen s.old) (S.seen s.new) }
    ensures takes { IfOk result (λ some. IsState (S.seen s.old).now.state → domain_of (S.seen s.old).now.state v ≡ Some had.now →
        IsWithin kept.now had.now → Takes kept.now (lost_in (S.seen s.old) lost.old.items) (Item.Var v) some
        (lost_in (S.seen s.new) lost.new.items)) }
    ensures err { OnErr result (KeepsState (S.seen s.old) (S.seen s.new)) }
{
    if have_one_size(had, kept) {
        return Ok(true);
    }
    let Some(least) = min(kept) else {
        return Ok(false);
    };
    lost.push(v)?;
    write(s, v, kept, least)?;
    Ok(true)
}

/// Binds a variable to the one value that is kept, or gives it those that are.
fn write<S: StateStore>(s: &mut S, v: u64, kept: &Domain, least: i64) -> Result<(), AllocError>
    ensures keeps { Keeps (S.seen s.old) (S.seen s.new) }
    ensures one { OnOk result ((d : List Span) → IsState (S.seen s.old).now.state → domain_of (S.seen s.old).now.state v ≡ Some d →
        size_of kept.now ≡ 1 → (S.seen s.new).now.state ≡ with_binding (S.seen s.old).now.state v (int least)) }
    ensures more { OnOk result ((d : List Span) → IsState (S.seen s.old).now.state →
        domain_of (S.seen s.old).now.state v ≡ Some d → 2 ≤ size_of kept.now →
        (S.seen s.new).now.state ≡ with_domain (S.seen s.old).now.state v kept.now) }
    ensures err { OnErr result (KeepsState (S.seen s.old) (S.seen s.new)) }
{
    if size(kept) == 1 {
        fix(s, v, least)?;
        return Ok(());
    }
    let at = s.var_ref(v);
    s.set_domain(at, kept)?;
    Ok(())
}

/// Binds a variable to an integer.
fn fix<S: StateStore>(s: &mut S, v: u64, n: i64) -> Result<(), AllocError>
    ensures keeps { Keeps (S.seen s.old) (S.seen s.new) }
    ensures ok { OnOk result ((d : List Span) → IsState (S.seen s.old).now.state → domain_of (S.seen s.old).now.state v ≡ Some d →
        (S.seen s.new).now.state ≡ with_binding (S.seen s.old).now.state v (int n)) }
    ensures err { OnErr result (KeepsState (S.seen s.old) (S.seen s.new)) }
{
    let value = s.put_int(i128::from(n))?;
    let at = s.var_ref(v);
    s.bind(at, value)?;
    Ok(())
}
