//! Proper lists and compounds by their items.
ghost use Rattle.std.specs.Prelude.{◌≡◌, List, IfOk, Ok, codes, length, slice_get};
ghost use Rattle.pi_terms.specs.Tree.{Tree};
ghost use Rattle.pi_constraints.specs.State.{bindings};
ghost use Rattle.pi_constraints.specs.Store.{IsTerm};
ghost use Rattle.pi_effects.specs.Exception.{type_error};
ghost use Rattle.pi_effects.specs.Answer.{found_or};
ghost use Rattle.pi_effects.specs.Items.{indexed_items, list_items};
ghost use Rattle.pi_effects.specs.Collections.{collection_then};
ghost use Rattle.pi_effects.specs.Balls.{kind_name};
ghost use Rattle.pi_effects.specs.Results.{Shows};
ghost use Rattle.pi_unify.specs.Terms.{HoldsNoCycle};
ghost use Rattle.pi_lib_builtin.specs.Items.{HasItems, HoldsItems, ShowsItem};

use crate::parts::{array_size, structure_size};
use crate::walk::walk;
use pi_constraints::{Ref, StateStore};
use pi_effects::{Fault, Kind, Stop};
use std::alloc::{AllocError, Global};

/// The items of a proper list or of a compound. An item of a compound is found at once.
#[derive(Drop)]
pub enum Collection {
    /// The items of a list.
    Listed(Vec<Ref>),
    /// The arguments of a compound, so many.
    Arguments(Ref, u64),
}

impl Collection {
    /// How many items there are.
    pub fn count<S: StateStore>(&self, s: &S) -> u64
        ensures { (ts : List Tree) → HasItems (S.seen s.now) self.now ts → result ≡ length ts }
    {
        match self {
            Collection::Listed(items) => items.len() as u64,
            Collection::Arguments(_, count) => *count,
        }
    }

    /// The item in this place, counted from 0.
    pub fn item<S: StateStore>(&self, s: &S, place: u64) -> Option<Ref>
        ensures { (ts : List Tree) → HoldsNoCycle (S.seen s.now) → HasItems (S.seen s.now) self.now ts →
            ShowsItem (S.seen s.now) (slice_get ts place) result }
    {
        match self {
            Collection::Listed(items) => item_in(items, place as usize),
            Collection::Arguments(term, count) => {
                if place < *count {
                    Some(s.arg(*term, place))
                } else {
                    None
                }
            }
        }
    }

    /// All items.
    pub fn into_items<S: StateStore>(self, alloc: Global, s: &S) -> Result<Vec<Ref>, AllocError>
        ensures { IfOk result (λ items. (ts : List Tree) → HoldsNoCycle (S.seen s.now) → HasItems (S.seen s.now) self ts →
            HoldsItems (S.seen s.now) items ts) }
    {
        match self {
            Collection::Listed(items) => Ok(items),
            Collection::Arguments(term, count) => Ok(arguments(alloc, s, term, count)?),
        }
    }
}

/// The items of a proper list or of an array; any other term is of a wrong kind.
pub fn read_collection<S: StateStore>(alloc: Global, s: &S, term: Ref) -> Result<Collection, Stop>
    ensures { (t : Tree) → HoldsNoCycle (S.seen s.now) → IsTerm (S.seen s.now) term t →
        Shows (HasItems (S.seen s.now)) (S.seen s.now) result (collection_then (S.seen s.now).now.state t (λ ts. Ok ts)) }
{
    match array_size(s, term) {
        Some(count) => Ok(Collection::Arguments(term, count)),
        None => listed(alloc, s, term, Kind::Collection),
    }
}

/// The items of a proper list or of a compound that is no list cell; any other term is no list.
pub fn read_indexable<S: StateStore>(alloc: Global, s: &S, term: Ref) -> Result<Collection, Stop>
    ensures { (t : Tree) → HoldsNoCycle (S.seen s.now) → IsTerm (S.seen s.now) term t →
        Shows (HasItems (S.seen s.now)) (S.seen s.now) result
        (found_or (indexed_items (bindings (S.seen s.now).now.state) t) (type_error (codes "list") t (S.seen s.now).now.state)
        (λ ts. Ok ts)) }
{
    match structure_size(s, term) {
        Some(count) => Ok(Collection::Arguments(term, count)),
        None => listed(alloc, s, term, Kind::ProperList),
    }
}

/// The items of a proper list or of an array, as Refs.
pub fn collection_items<S: StateStore>(alloc: Global, s: &S, term: Ref) -> Result<Vec<Ref>, Stop>
    ensures { (t : Tree) → HoldsNoCycle (S.seen s.now) → IsTerm (S.seen s.now) term t →
        Shows (HoldsItems (S.seen s.now)) (S.seen s.now) result (collection_then (S.seen s.now).now.state t (λ ts. Ok ts)) }
{
    let found = read_collection(alloc, s, term)?;
    Ok(found.into_items(alloc, s)?)
}

/// The items of a proper list; any other term isn't of this kind.
fn listed<S: StateStore>(alloc: Global, s: &S, term: Ref, kind: Kind) -> Result<Collection, Stop>
    ensures { (t : Tree) → HoldsNoCycle (S.seen s.now) → IsTerm (S.seen s.now) term t →
        Shows (HasItems (S.seen s.now)) (S.seen s.now) result
        (found_or (list_items (bindings (S.seen s.now).now.state) t) (type_error (kind_name kind) t (S.seen s.now).now.state)
        (λ ts. Ok ts)) }
{
    let found = walk(alloc, s, term)?;
    match found {
        Some(items) => Ok(Collection::Listed(items)),
        None => Err(Stop::Raised(Fault::WrongKind(kind, term))),
    }
}

/// So many arguments of a compound.
fn arguments<S: StateStore>(
    alloc: Global,
    s: &S,
    term: Ref,
    count: u64,
) -> Result<Vec<Ref>, AllocError>
    ensures { IfOk result (λ items. (ts : List Tree) → HoldsNoCycle (S.seen s.now) →
        HasItems (S.seen s.now) (Collection.Arguments term count) ts → HoldsItems (S.seen s.now) items ts) }
{
    let mut items = Vec::new(alloc);
    for i in 0..count {
        items.push(s.arg(term, i))?;
    }
    Ok(items)
}

fn item_in(items: &[Ref], place: usize) -> Option<Ref>
    ensures { result ≡ slice_get items.now place }
{
    items.get(place).copied()
}
