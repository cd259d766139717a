//! The least and the greatest item of a list or an array. A User's Guide to Picat, 'Data Types, Operators, and Built-ins'; the
//! order is own.
ghost use Rattle.std.specs.Prelude.{◌≡◌, List, IfOk};
ghost use Rattle.pi_terms.specs.Tree.{Tree};
ghost use Rattle.pi_constraints.specs.Store.{IsTerm};
ghost use Rattle.pi_effects.specs.Collections.{collection_then, item_or_first_index};
ghost use Rattle.pi_effects.specs.Sorting.{least as least_of, greatest as greatest_of};
ghost use Rattle.pi_effects.specs.Results.{ShowsTerm};
ghost use Rattle.pi_unify.specs.Terms.{HoldsNoCycle};
ghost use Rattle.pi_lib_builtin.specs.Items.{AreItems, ShowsItem};
ghost use Rattle.pi_lib.specs.Extremes.{beats, extreme_of};

use pi_constraints::{Ref, StateStore};
use pi_effects::{Fault, Stop};
use pi_lib_builtin::collection_items;
use pi_unify::compare;
use std::alloc::{AllocError, Global};

/// Which item is looked for: the first of the least, or of the greatest.
#[derive(Clone, Copy)]
pub enum End {
    Least,
    Greatest,
}

/// `min/1`: the first of the least items of a proper list or an array.
pub fn least<S: StateStore>(alloc: Global, s: &S, term: Ref) -> Result<Ref, Stop>
    ensures { (t : Tree) → HoldsNoCycle (S.seen s.now) → IsTerm (S.seen s.now) term t →
        ShowsTerm (S.seen s.now) (S.seen s.now) result
        (collection_then (S.seen s.now).now.state t (λ ts.
        item_or_first_index (least_of (S.seen s.now).now.state ts) (S.seen s.now).now.state)) }
{
    Ok(item_at_end(alloc, s, End::Least, term)?)
}

/// `max/1`: the first of the greatest items of a proper list or an array.
pub fn greatest<S: StateStore>(alloc: Global, s: &S, term: Ref) -> Result<Ref, Stop>
    ensures { (t : Tree) → HoldsNoCycle (S.seen s.now) → IsTerm (S.seen s.now) term t →
        ShowsTerm (S.seen s.now) (S.seen s.now) result
        (collection_then (S.seen s.now).now.state t (λ ts.
        item_or_first_index (greatest_of (S.seen s.now).now.state ts) (S.seen s.now).now.state)) }
{
    Ok(item_at_end(alloc, s, End::Greatest, term)?)
}

fn item_at_end<S: StateStore>(alloc: Global, s: &S, end: End, term: Ref) -> Result<Ref, Stop>
    ensures { (t : Tree) → HoldsNoCycle (S.seen s.now) → IsTerm (S.seen s.now) term t →
        ShowsTerm (S.seen s.now) (S.seen s.now) result
        (collection_then (S.seen s.now).now.state t (λ ts.
        item_or_first_index (extreme_of end (S.seen s.now).now.state ts) (S.seen s.now).now.state)) }
{
    let items = collection_items(alloc, s, term)?;
    let found = extreme(alloc, s, end, &items)?;
    found.ok_or(Stop::Raised(Fault::NoFirst))
}

/// The item that is looked for. None exactly where there is none.
fn extreme<S: StateStore>(
    alloc: Global,
    s: &S,
    end: End,
    items: &[Ref],
) -> Result<Option<Ref>, AllocError>
    ensures { IfOk result (λ found. (ts : List Tree) → HoldsNoCycle (S.seen s.now) → AreItems (S.seen s.now) items.now ts →
        ShowsItem (S.seen s.now) (extreme_of end (S.seen s.now).now.state ts) found) }
{
    if items.is_empty() {
        return Ok(None);
    }
    let mut best = items[0];
    for i in 1..items.len() {
        let item = items[i];
        let better = is_better(alloc, s, end, best, item)?;
        if better {
            best = item;
        }
    }
    Ok(Some(best))
}

/// Whether an item takes the place of the best one before it.
fn is_better<S: StateStore>(
    alloc: Global,
    s: &S,
    end: End,
    best: Ref,
    item: Ref,
) -> Result<bool, AllocError>
    ensures { IfOk result (λ better. (t u : Tree) → HoldsNoCycle (S.seen s.now) → IsTerm (S.seen s.now) best t →
        IsTerm (S.seen s.now) item u → better ≡ beats end (S.seen s.now).now.state t u) }
{
    match end {
        End::Least => {
            let order = compare(alloc, s, item, best)?;
            Ok(order.is_lt())
        }
        End::Greatest => {
            let order = compare(alloc, s, best, item)?;
            Ok(order.is_lt())
        }
    }
}
