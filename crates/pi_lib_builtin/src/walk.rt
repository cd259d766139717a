//! The walk of a proper list.
ghost use Rattle.std.specs.Prelude.{IfOk, Ok};
ghost use Rattle.pi_terms.specs.Tree.{Tree};
ghost use Rattle.pi_constraints.specs.State.{bindings};
ghost use Rattle.pi_constraints.specs.Store.{IsTerm};
ghost use Rattle.pi_effects.specs.Items.{list_items as items_in};
ghost use Rattle.pi_effects.specs.Collections.{list_then};
ghost use Rattle.pi_effects.specs.Results.{Shows};
ghost use Rattle.pi_unify.specs.Terms.{HoldsNoCycle};
ghost use Rattle.pi_lib_builtin.specs.Items.{HoldsItems, ShowsItems};

use crate::parts::{Part, part_at};
use pi_constraints::{Ref, StateStore};
use pi_effects::{Fault, Kind, Stop};
use std::alloc::{AllocError, Global};

/// The items of a proper list; any other term is of a wrong kind.
pub fn list_items<S: StateStore>(alloc: Global, s: &S, list: Ref) -> Result<Vec<Ref>, Stop>
    ensures { (t : Tree) → HoldsNoCycle (S.seen s.now) → IsTerm (S.seen s.now) list t →
        Shows (HoldsItems (S.seen s.now)) (S.seen s.now) result (list_then (S.seen s.now).now.state t (λ ts. Ok ts)) }
{
    let found = walk(alloc, s, list)?;
    match found {
        Some(items) => Ok(items),
        None => Err(Stop::Raised(Fault::WrongKind(Kind::ProperList, list))),
    }
}

/// The items of a proper list. None exactly where the term is none.
pub fn walk<S: StateStore>(alloc: Global, s: &S, list: Ref) -> Result<Option<Vec<Ref>>, AllocError>
    ensures { IfOk result (λ found. (t : Tree) → HoldsNoCycle (S.seen s.now) → IsTerm (S.seen s.now) list t →
        ShowsItems (S.seen s.now) (items_in (bindings (S.seen s.now).now.state) t) found) }
{
    let mut items = Vec::new(alloc);
    let mut at = list;
    for _ in 0..u64::MAX {
        match part_at(s, at) {
            Part::Nil => return Ok(Some(items)),
            Part::Cell => {
                items.push(s.arg(at, 0))?;
                at = s.arg(at, 1);
            }
            Part::Other => return Ok(None),
        }
    }
    Err(AllocError)
}
