//! Functions that make lists and arrays of items.
ghost use Rattle.std.specs.Prelude.{◌≡◌, List, Ok, IfOk, map, reverse as reversed_items, zip as zipped};
ghost use Rattle.pi_terms.specs.Tree.{Tree};
ghost use Rattle.pi_constraints.specs.Store.{IsTerm, Stays};
ghost use Rattle.pi_effects.specs.Items.{list_of, array_of};
ghost use Rattle.pi_effects.specs.Collections.{list_then, collection_then, joined, without, pair};
ghost use Rattle.pi_effects.specs.Inner.{in_order as items_in_order};
ghost use Rattle.pi_effects.specs.Results.{ShowsTerm};
ghost use Rattle.pi_unify.specs.Terms.{HoldsNoCycle};
ghost use Rattle.pi_lib_builtin.specs.Items.{AreItems};

use crate::building::{put_array, put_list, put_onto};
use crate::collection::collection_items;
use crate::walk::{list_items, walk};
use pi_constraints::{Ref, StateStore};
use pi_effects::Stop;
use pi_unify::compare;
use std::alloc::{AllocError, Global};

/// `reverse/1`: the items of a proper list from the last one.
pub fn reverse<S: StateStore>(alloc: Global, s: &mut S, list: Ref) -> Result<Ref, Stop>
    ensures stays { Stays (S.seen s.old) (S.seen s.new) }
    ensures shows { (t : Tree) → HoldsNoCycle (S.seen s.old) → IsTerm (S.seen s.old) list t →
        ShowsTerm (S.seen s.old) (S.seen s.new) result
        (list_then (S.seen s.old).now.state t (λ ts. Ok (list_of (reversed_items ts)))) }
{
    let items = list_items(alloc, s, list)?;
    Ok(put_reversed(s, &items)?)
}

/// `not/1`, which lowered programs call: the items of a proper list from the last one, none of any other term.
pub fn in_order<S: StateStore>(alloc: Global, s: &mut S, list: Ref) -> Result<Ref, Stop>
    ensures stays { Stays (S.seen s.old) (S.seen s.new) }
    ensures shows { (t : Tree) → HoldsNoCycle (S.seen s.old) → IsTerm (S.seen s.old) list t →
        ShowsTerm (S.seen s.old) (S.seen s.new) result (items_in_order (S.seen s.old).now.state t) }
{
    let found = walk(alloc, s, list)?;
    match found {
        Some(items) => Ok(put_reversed(s, &items)?),
        None => Ok(s.put_atom("[]")?),
    }
}

/// `++`: a proper list in front of another, which is shared.
pub fn append<S: StateStore>(alloc: Global, s: &mut S, left: Ref, right: Ref) -> Result<Ref, Stop>
    ensures stays { Stays (S.seen s.old) (S.seen s.new) }
    ensures shows { (t u : Tree) → HoldsNoCycle (S.seen s.old) → IsTerm (S.seen s.old) left t → IsTerm (S.seen s.old) right u →
        ShowsTerm (S.seen s.old) (S.seen s.new) result (joined (S.seen s.old).now.state t u) }
{
    let items = list_items(alloc, s, left)?;
    let _behind = list_items(alloc, s, right)?;
    let made = put_onto(s, &items, right)?;
    Ok(made)
}

/// `delete_all/2`: a proper list without the items that are the same as a term.
pub fn delete_all<S: StateStore>(
    alloc: Global,
    s: &mut S,
    list: Ref,
    term: Ref,
) -> Result<Ref, Stop>
    ensures stays { Stays (S.seen s.old) (S.seen s.new) }
    ensures shows { (t u : Tree) → HoldsNoCycle (S.seen s.old) → IsTerm (S.seen s.old) list t → IsTerm (S.seen s.old) term u →
        ShowsTerm (S.seen s.old) (S.seen s.new) result
        (list_then (S.seen s.old).now.state t (λ ts. Ok (list_of (without (S.seen s.old).now.state u ts)))) }
{
    let items = list_items(alloc, s, list)?;
    let made = put_others(alloc, s, &items, term)?;
    Ok(made)
}

/// `zip/2`: the pairs of the items of two proper lists, as many as the shorter one has.
pub fn zip<S: StateStore>(alloc: Global, s: &mut S, left: Ref, right: Ref) -> Result<Ref, Stop>
    ensures stays { Stays (S.seen s.old) (S.seen s.new) }
    ensures shows { (t u : Tree) → HoldsNoCycle (S.seen s.old) → IsTerm (S.seen s.old) left t → IsTerm (S.seen s.old) right u →
        ShowsTerm (S.seen s.old) (S.seen s.new) result
        (list_then (S.seen s.old).now.state t (λ ts. list_then (S.seen s.old).now.state u
        (λ us. Ok (list_of (map pair (zipped ts us)))))) }
{
    let items = list_items(alloc, s, left)?;
    let others = list_items(alloc, s, right)?;
    let made = put_pairs(s, &items, &others)?;
    Ok(made)
}

/// `to_list/1`: the items of a proper list or an array as a list.
pub fn to_list<S: StateStore>(alloc: Global, s: &mut S, term: Ref) -> Result<Ref, Stop>
    ensures stays { Stays (S.seen s.old) (S.seen s.new) }
    ensures shows { (t : Tree) → HoldsNoCycle (S.seen s.old) → IsTerm (S.seen s.old) term t →
        ShowsTerm (S.seen s.old) (S.seen s.new) result (collection_then (S.seen s.old).now.state t (λ ts. Ok (list_of ts))) }
{
    let items = collection_items(alloc, s, term)?;
    Ok(put_list(s, &items)?)
}

/// `to_array/1`: the items of a proper list or an array as an array.
pub fn to_array<S: StateStore>(alloc: Global, s: &mut S, term: Ref) -> Result<Ref, Stop>
    ensures stays { Stays (S.seen s.old) (S.seen s.new) }
    ensures shows { (t : Tree) → HoldsNoCycle (S.seen s.old) → IsTerm (S.seen s.old) term t →
        ShowsTerm (S.seen s.old) (S.seen s.new) result (collection_then (S.seen s.old).now.state t (λ ts. Ok (array_of ts))) }
{
    let items = collection_items(alloc, s, term)?;
    Ok(put_array(s, &items)?)
}

/// The list of items from the last one.
fn put_reversed<S: StateStore>(s: &mut S, items: &[Ref]) -> Result<Ref, AllocError>
    ensures stays { Stays (S.seen s.old) (S.seen s.new) }
    ensures ok { IfOk result (λ made. (ts : List Tree) → AreItems (S.seen s.old) items.now ts →
        IsTerm (S.seen s.new) made (list_of (reversed_items ts))) }
{
    let mut list = s.put_atom("[]")?;
    for item in items {
        list = s.put_comp("[|]", &[*item, list])?;
    }
    Ok(list)
}

/// The list of the items that aren't the same as a term.
fn put_others<S: StateStore>(
    alloc: Global,
    s: &mut S,
    items: &[Ref],
    term: Ref,
) -> Result<Ref, AllocError>
    ensures stays { Stays (S.seen s.old) (S.seen s.new) }
    ensures ok { IfOk result (λ made. (ts : List Tree) (u : Tree) → HoldsNoCycle (S.seen s.old) →
        AreItems (S.seen s.old) items.now ts → IsTerm (S.seen s.old) term u →
        IsTerm (S.seen s.new) made (list_of (without (S.seen s.old).now.state u ts))) }
{
    let mut list = s.put_atom("[]")?;
    for i in (0..items.len()).rev() {
        let item = items[i];
        let order = compare(alloc, s, item, term)?;
        if order.is_ne() {
            list = s.put_comp("[|]", &[item, list])?;
        }
    }
    Ok(list)
}

/// The list of the pairs of two vectors of items, as many as the shorter one has.
fn put_pairs<S: StateStore>(s: &mut S, items: &[Ref], others: &[Ref]) -> Result<Ref, AllocError>
    ensures stays { Stays (S.seen s.old) (S.seen s.new) }
    ensures ok { IfOk result (λ made. (ts us : List Tree) → AreItems (S.seen s.old) items.now ts →
        AreItems (S.seen s.old) others.now us → IsTerm (S.seen s.new) made (list_of (map pair (zipped ts us)))) }
{
    let mut list = s.put_atom("[]")?;
    for i in (0..items.len().min(others.len())).rev() {
        let pair = s.put_comp("{}", &[items[i], others[i]])?;
        list = s.put_comp("[|]", &[pair, list])?;
    }
    Ok(list)
}
