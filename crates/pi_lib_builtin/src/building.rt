//! Lists and arrays that are put into a store.
ghost use Rattle.std.specs.Prelude.{List, IfOk};
ghost use Rattle.pi_terms.specs.Tree.{Tree};
ghost use Rattle.pi_constraints.specs.Store.{IsTerm, Stays};
ghost use Rattle.pi_effects.specs.Items.{list_of, list_onto, array_of};
ghost use Rattle.pi_lib_builtin.specs.Items.{AreItems};

use pi_constraints::{Ref, StateStore};
use std::alloc::AllocError;

/// The list of these items. A User's Guide to Picat, 'Data Types, Operators, and Built-ins'; the names of a cell and of the
/// empty list are own.
pub fn put_list<S: StateStore>(s: &mut S, items: &[Ref]) -> Result<Ref, AllocError>
    ensures stays { Stays (S.seen s.old) (S.seen s.new) }
    ensures ok { IfOk result (λ made. (ts : List Tree) → AreItems (S.seen s.old) items.now ts → IsTerm (S.seen s.new) made (list_of ts)) }
{
    let nil = s.put_atom("[]")?;
    let made = put_onto(s, items, nil)?;
    Ok(made)
}

/// Items in front of a term, which stays as it stands.
pub fn put_onto<S: StateStore>(s: &mut S, items: &[Ref], rest: Ref) -> Result<Ref, AllocError>
    ensures stays { Stays (S.seen s.old) (S.seen s.new) }
    ensures ok { IfOk result (λ made. (ts : List Tree) (t : Tree) → AreItems (S.seen s.old) items.now ts →
        IsTerm (S.seen s.old) rest t → IsTerm (S.seen s.new) made (list_onto ts t)) }
{
    let mut list = rest;
    for i in (0..items.len()).rev() {
        list = s.put_comp("[|]", &[items[i], list])?;
    }
    Ok(list)
}

/// The array of these items.
pub fn put_array<S: StateStore>(s: &mut S, items: &[Ref]) -> Result<Ref, AllocError>
    ensures stays { Stays (S.seen s.old) (S.seen s.new) }
    ensures ok { IfOk result (λ made. (ts : List Tree) → AreItems (S.seen s.old) items.now ts → IsTerm (S.seen s.new) made (array_of ts)) }
{
    let made = s.put_comp("{}", items)?;
    Ok(made)
}
