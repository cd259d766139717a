//! Functions that look at a list or an array: how many items it has, and some of its items.
ghost use Rattle.std.specs.Prelude.{◌≡◌, ◌<◌, List, Some, None, slice_get};
ghost use Rattle.std.specs.List.{last_or};
ghost use Rattle.pi_terms.specs.Tree.{Tree, arg_at};
ghost use Rattle.pi_terms.specs.ListCopies.{list_cell};
ghost use Rattle.pi_constraints.specs.Store.{IsTerm, Stays};
ghost use Rattle.pi_effects.specs.Collections.{collection_then, count, item_or_first_index, cell_part};
ghost use Rattle.pi_effects.specs.Indexing.{indexed, item_at as item_with_number};
ghost use Rattle.pi_effects.specs.Results.{ShowsTerm};
ghost use Rattle.pi_unify.specs.Terms.{HoldsNoCycle};
ghost use Rattle.pi_lib_builtin.specs.Items.{HasItems, ShowsItem};

use crate::collection::{Collection, read_collection, read_indexable};
use crate::parts::{Part, part_at};
use crate::walk::list_items;
use pi_constraints::{Ref, StateStore};
use pi_effects::{Fault, Kind, Stop, integer};
use std::alloc::Global;

/// `length/1` and `len/1`: how many items a proper list or an array has.
pub fn length<S: StateStore>(alloc: Global, s: &mut S, term: Ref) -> Result<Ref, Stop>
    ensures stays { Stays (S.seen s.old) (S.seen s.new) }
    ensures shows { (t : Tree) → HoldsNoCycle (S.seen s.old) → IsTerm (S.seen s.old) term t →
        ShowsTerm (S.seen s.old) (S.seen s.new) result (collection_then (S.seen s.old).now.state t count) }
{
    let items = read_collection(alloc, s, term)?;
    let size = items.count(s);
    Ok(s.put_int(size as i128)?)
}

/// `head/1`: the first item of a proper list that isn't empty.
pub fn head<S: StateStore>(alloc: Global, s: &S, list: Ref) -> Result<Ref, Stop>
    ensures { (t : Tree) → HoldsNoCycle (S.seen s.now) → IsTerm (S.seen s.now) list t →
        ShowsTerm (S.seen s.now) (S.seen s.now) result (cell_part (λ p. p.0) (S.seen s.now).now.state t) }
{
    argument_of_cell(alloc, s, list, 0)
}

/// `tail/1`: what is behind the first item of a proper list that isn't empty.
pub fn tail<S: StateStore>(alloc: Global, s: &S, list: Ref) -> Result<Ref, Stop>
    ensures { (t : Tree) → HoldsNoCycle (S.seen s.now) → IsTerm (S.seen s.now) list t →
        ShowsTerm (S.seen s.now) (S.seen s.now) result (cell_part (λ p. p.1) (S.seen s.now).now.state t) }
{
    argument_of_cell(alloc, s, list, 1)
}

/// An argument of the first cell of a proper list.
fn argument_of_cell<S: StateStore>(alloc: Global, s: &S, list: Ref, i: u64) -> Result<Ref, Stop>
    ensures { (t : Tree) (part : Tree × Tree → Tree) → HoldsNoCycle (S.seen s.now) → IsTerm (S.seen s.now) list t →
        ((item rest : Tree) → arg_at (list_cell item rest) i ≡ Some (part (item, rest))) →
        ShowsTerm (S.seen s.now) (S.seen s.now) result (cell_part part (S.seen s.now).now.state t) }
{
    let _items = list_items(alloc, s, list)?;
    match part_at(s, list) {
        Part::Cell => Ok(s.arg(list, i)),
        _ => Err(Stop::Raised(Fault::WrongKind(Kind::ProperList, list))),
    }
}

/// `first/1`: the first item of a proper list or an array.
pub fn first<S: StateStore>(alloc: Global, s: &S, term: Ref) -> Result<Ref, Stop>
    ensures { (t : Tree) → HoldsNoCycle (S.seen s.now) → IsTerm (S.seen s.now) term t →
        ShowsTerm (S.seen s.now) (S.seen s.now) result
        (collection_then (S.seen s.now).now.state t (λ ts. item_or_first_index (slice_get ts 0) (S.seen s.now).now.state)) }
{
    let items = read_collection(alloc, s, term)?;
    items.item(s, 0).ok_or(Stop::Raised(Fault::NoFirst))
}

/// `last/1`: the last item of a proper list or an array.
pub fn last<S: StateStore>(alloc: Global, s: &S, term: Ref) -> Result<Ref, Stop>
    ensures { (t : Tree) → HoldsNoCycle (S.seen s.now) → IsTerm (S.seen s.now) term t →
        ShowsTerm (S.seen s.now) (S.seen s.now) result
        (collection_then (S.seen s.now).now.state t (λ ts. item_or_first_index (last_or None ts) (S.seen s.now).now.state)) }
{
    let items = read_collection(alloc, s, term)?;
    let place = items.count(s).saturating_sub(1);
    items.item(s, place).ok_or(Stop::Raised(Fault::NoFirst))
}

/// `X[I]`: an item of a proper list or of a compound that is no list cell, by its number from 1.
pub fn item_at<S: StateStore>(alloc: Global, s: &S, term: Ref, index: Ref) -> Result<Ref, Stop>
    ensures { (t i : Tree) → HoldsNoCycle (S.seen s.now) → IsTerm (S.seen s.now) term t → IsTerm (S.seen s.now) index i →
        ShowsTerm (S.seen s.now) (S.seen s.now) result (indexed (S.seen s.now).now.state t i) }
{
    let items = read_indexable(alloc, s, term)?;
    let number = integer(s, index)?;
    numbered_item(s, &items, number).ok_or(Stop::Raised(Fault::BadIndex(index)))
}

/// The item with this number, counted from 1.
fn numbered_item<S: StateStore>(s: &S, items: &Collection, number: i128) -> Option<Ref>
    ensures { (ts : List Tree) → HoldsNoCycle (S.seen s.now) → HasItems (S.seen s.now) items.now ts →
        ShowsItem (S.seen s.now) (item_with_number ts number) result }
{
    let size = items.count(s) as i128;
    if number < 1 {
        return None;
    }
    if number > size {
        return None;
    }
    items.item(s, (number - 1) as u64)
}
