//! What items are left, one after the other.
ghost use Rattle.std.specs.Prelude.{◌≡◌, ℕ, ◌≤◌, List, IfOk, OnOk};
ghost use Rattle.pi_terms.specs.Tree.{int};
ghost use Rattle.pi_constraints.specs.declared.constraint.Item.{Item};
ghost use Rattle.pi_constraints.specs.Domain.{IsDomain, size_of};
ghost use Rattle.pi_constraints.specs.State.{IsState, with_binding, with_domain};
ghost use Rattle.pi_constraints.specs.Store.{IsTerm, Keeps};
ghost use Rattle.pi_settling.specs.Roots.{root_item};
ghost use Rattle.pi_settling.specs.Within.{kept_in, each_item};
ghost use Rattle.pi_lib_constraints.specs.Kept.{item_term, AreRefsOf, as_wanted, item_kept, IsLeft, LeadsToVariable};

use crate::defaults::values_of;
use pi_constraints::{Cell, Domain, Ref, StateStore, contains, meet, min, size};
use std::alloc::{AllocError, Global};

/// Leaves each item in turn the values that it may keep: a variable those that `kept` has, and an integer is kept where it is a
/// value of the domain, or where it isn't. False where an item is left nothing.
pub(crate) fn keep_all<S: StateStore>(
    alloc: Global,
    s: &mut S,
    items: &[Ref],
    wanted: bool,
    domain: &Domain,
    kept: &Domain,
) -> Result<bool, AllocError>
    ensures keeps { Keeps (S.seen s.old) (S.seen s.new) }
    ensures left { IfOk result (λ some. (xs : List Item) → IsState (S.seen s.old).now.state → IsDomain kept.now →
        AreRefsOf (S.seen s.old) items.now xs → IsLeft some (S.seen s.new).now.state
        (each_item (item_kept wanted domain.now kept.now) xs (S.seen s.old).now.state)) }
{
    for k in 0..items.len() {
        let some = keep_item(alloc, s, items[k], wanted, domain, kept)?;
        if !some {
            return Ok(false);
        }
    }
    Ok(true)
}

/// Leaves an item the values that it may keep.
fn keep_item<S: StateStore>(
    alloc: Global,
    s: &mut S,
    item: Ref,
    wanted: bool,
    domain: &Domain,
    kept: &Domain,
) -> Result<bool, AllocError>
    ensures keeps { Keeps (S.seen s.old) (S.seen s.new) }
    ensures left { IfOk result (λ some. (x : Item) → IsState (S.seen s.old).now.state → IsTerm (S.seen s.old) item (item_term x) →
        IsLeft some (S.seen s.new).now.state (item_kept wanted domain.now kept.now (S.seen s.old).now.state
        (root_item (S.seen s.old).now.state x))) }
{
    match s.look(item) {
        Cell::Int(n) => Ok(as_wanted(wanted, contains(domain, n))),
        Cell::Var(_) => {
            let some = keep_variable(alloc, s, item, kept)?;
            Ok(some)
        }
        Cell::Atom(_) => Ok(true),
        Cell::Comp(_, _) => Ok(true),
    }
}

/// Whether something is so, where it is wanted, and else whether it isn't.
fn as_wanted(wanted: bool, is_so: bool) -> bool
    ensures { result ≡ as_wanted wanted is_so }
{
    if wanted { is_so } else { !is_so }
}

/// Leaves an unbound variable the values that it may keep.
fn keep_variable<S: StateStore>(
    alloc: Global,
    s: &mut S,
    at: Ref,
    kept: &Domain,
) -> Result<bool, AllocError>
    ensures keeps { Keeps (S.seen s.old) (S.seen s.new) }
    ensures left { IfOk result (λ some. (n : ℕ) → IsState (S.seen s.old).now.state → LeadsToVariable (S.seen s.old) at n →
        IsLeft some (S.seen s.new).now.state (kept_in kept.now (S.seen s.old).now.state n)) }
{
    let had = values_of(alloc, s, at)?;
    let left = meet(alloc, &had, kept)?;
    let Some(least) = min(&left) else {
        return Ok(false);
    };
    leave_values(s, at, &left, least)?;
    Ok(true)
}

/// Binds an unbound variable to the one value that is left, or gives it those that are. An `Err` stands for want of memory. (Own.)
pub fn leave_values<S: StateStore>(
    s: &mut S,
    at: Ref,
    left: &Domain,
    least: i64,
) -> Result<(), AllocError>
    ensures keeps { Keeps (S.seen s.old) (S.seen s.new) }
    ensures domain { IsDomain left.now }
    ensures one { OnOk result ((n : ℕ) → IsState (S.seen s.old).now.state → LeadsToVariable (S.seen s.old) at n →
        size_of left.now ≡ 1 → (S.seen s.new).now.state ≡ with_binding (S.seen s.old).now.state n (int least)) }
    ensures more { OnOk result ((n : ℕ) → IsState (S.seen s.old).now.state → LeadsToVariable (S.seen s.old) at n →
        2 ≤ size_of left.now → (S.seen s.new).now.state ≡ with_domain (S.seen s.old).now.state n left.now) }
{
    let _spans = left.spans();
    if size(left) == 1 {
        bind_to_integer(s, at, least)?;
        return Ok(());
    }
    let _root = s.look(at);
    s.set_domain(at, left)?;
    Ok(())
}

/// Binds an unbound variable to an integer. An `Err` stands for want of memory. (Own.)
pub fn bind_to_integer<S: StateStore>(s: &mut S, at: Ref, n: i64) -> Result<(), AllocError>
    ensures keeps { Keeps (S.seen s.old) (S.seen s.new) }
    ensures ok { OnOk result ((m : ℕ) → IsState (S.seen s.old).now.state → LeadsToVariable (S.seen s.old) at m →
        (S.seen s.new).now.state ≡ with_binding (S.seen s.old).now.state m (int n)) }
{
    let _root = s.look(at);
    let value = s.put_int(i128::from(n))?;
    s.bind(at, value)?;
    Ok(())
}
