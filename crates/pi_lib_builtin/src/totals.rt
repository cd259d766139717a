//! Sums and products of items.
ghost use Rattle.std.specs.Prelude.{List, Ok, pos};
ghost use Rattle.pi_terms.specs.Tree.{Tree};
ghost use Rattle.pi_constraints.specs.Store.{IsTerm, Stays};
ghost use Rattle.pi_effects.specs.Value.{value_of};
ghost use Rattle.pi_effects.specs.Collections.{collection_then, total as total_of};
ghost use Rattle.pi_effects.specs.Answer.{integer_then};
ghost use Rattle.pi_effects.specs.Integers.{outcome_then};
ghost use Rattle.pi_effects.specs.Results.{Shows, ShowsSame, ShowsTerm};
ghost use Rattle.pi_unify.specs.Terms.{HoldsNoCycle};
ghost use Rattle.pi_lib_builtin.specs.Items.{AreItems, IsInteger};

use crate::collection::collection_items;
use pi_constraints::{Ref, StateStore};
use pi_effects::{Op, Stop, evaluate, integer};
use std::alloc::Global;

/// `sum/1`: the integers of a proper list or an array, added from the left.
pub fn sum<S: StateStore>(alloc: Global, s: &mut S, term: Ref) -> Result<Ref, Stop>
    ensures stays { Stays (S.seen s.old) (S.seen s.new) }
    ensures shows { (t : Tree) → HoldsNoCycle (S.seen s.old) → IsTerm (S.seen s.old) term t →
        ShowsTerm (S.seen s.old) (S.seen s.new) result
        (collection_then (S.seen s.old).now.state t (total_of Op.Add (S.seen s.old).now.state (pos 0))) }
{
    Ok(put_total(alloc, s, term, Op::Add, 0)?)
}

/// `prod/1`: the integers of a proper list or an array, multiplied from the left.
pub fn product<S: StateStore>(alloc: Global, s: &mut S, term: Ref) -> Result<Ref, Stop>
    ensures stays { Stays (S.seen s.old) (S.seen s.new) }
    ensures shows { (t : Tree) → HoldsNoCycle (S.seen s.old) → IsTerm (S.seen s.old) term t →
        ShowsTerm (S.seen s.old) (S.seen s.new) result
        (collection_then (S.seen s.old).now.state t (total_of Op.Mul (S.seen s.old).now.state (pos 1))) }
{
    Ok(put_total(alloc, s, term, Op::Mul, 1)?)
}

/// The integers of a proper list or an array, joined from the left.
fn put_total<S: StateStore>(
    alloc: Global,
    s: &mut S,
    term: Ref,
    op: Op,
    first: i128,
) -> Result<Ref, Stop>
    ensures stays { Stays (S.seen s.old) (S.seen s.new) }
    ensures shows { (t : Tree) → HoldsNoCycle (S.seen s.old) → IsTerm (S.seen s.old) term t →
        ShowsTerm (S.seen s.old) (S.seen s.new) result
        (collection_then (S.seen s.old).now.state t (total_of op (S.seen s.old).now.state first)) }
{
    let items = collection_items(alloc, s, term)?;
    let sum = total(s, &items, op, first)?;
    Ok(s.put_int(sum)?)
}

/// Integers joined from the left, from one on. The first item that is none is told, or the first value past the range.
fn total<S: StateStore>(s: &S, items: &[Ref], op: Op, first: i128) -> Result<i128, Stop>
    ensures { (ts : List Tree) → HoldsNoCycle (S.seen s.now) → AreItems (S.seen s.now) items.now ts →
        Shows IsInteger (S.seen s.now) result (total_of op (S.seen s.now).now.state first ts) }
{
    let mut sum = first;
    for item in items {
        sum = joined(s, op, sum, *item)?;
    }
    Ok(sum)
}

/// An integer joined with the one that an item is.
fn joined<S: StateStore>(s: &S, op: Op, sum: i128, item: Ref) -> Result<i128, Stop>
    ensures { (t : Tree) → HoldsNoCycle (S.seen s.now) → IsTerm (S.seen s.now) item t →
        ShowsSame (S.seen s.now) result (integer_then (S.seen s.now).now.state t
        (λ n. outcome_then (value_of op sum n) (λ more. Ok more))) }
{
    let n = integer(s, item)?;
    Ok(evaluate(op, sum, n)?)
}
