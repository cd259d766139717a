//! The name and the number of arguments of a term. A User's Guide to Picat, 'Data Types, Operators, and Built-ins'.
ghost use Rattle.std.specs.Prelude.{◌≡◌, ℕ, List, codes, IfOk};
ghost use Rattle.pi_terms.specs.Tree.{Tree, atom};
ghost use Rattle.pi_constraints.specs.Value.{IsAcyclic};
ghost use Rattle.pi_constraints.specs.State.{bindings, followed};
ghost use Rattle.pi_constraints.specs.Store.{IsTerm, IsName, Stays};
ghost use Rattle.pi_effects.specs.Exception.{type_error};
ghost use Rattle.pi_effects.specs.Answer.{or_raised};
ghost use Rattle.pi_effects.specs.Naming.{name_at, arity_at};
ghost use Rattle.pi_effects.specs.Results.{ShowsTerm};

use pi_constraints::{Cell, Ref, StateStore};
use pi_effects::{Fault, Kind, Stop};
use pi_terms::Text;
use std::alloc::{AllocError, Global};

/// `name`: the name of an atom or of a compound, as an atom.
pub fn name_of<S: StateStore>(alloc: Global, s: &mut S, a: Ref) -> Result<Ref, Stop>
    ensures stays { Stays (S.seen s.old) (S.seen s.new) }
    ensures shows { (t : Tree) → IsAcyclic (bindings (S.seen s.old).now.state) → IsTerm (S.seen s.old) a t →
        ShowsTerm (S.seen s.old) (S.seen s.new) result
        (or_raised (name_at (followed (bindings (S.seen s.old).now.state) t))
        (type_error (codes "callable") t (S.seen s.old).now.state)) }
{
    match s.look(a) {
        Cell::Atom(k) => Ok(put_name(alloc, s, k)?),
        Cell::Comp(k, _) => Ok(put_name(alloc, s, k)?),
        _ => Err(Stop::Raised(Fault::WrongKind(Kind::Callable, a))),
    }
}

/// `arity`: the number of arguments of a compound, and 0 of an atom.
pub fn arity_of<S: StateStore>(s: &mut S, a: Ref) -> Result<Ref, Stop>
    ensures stays { Stays (S.seen s.old) (S.seen s.new) }
    ensures shows { (t : Tree) → IsAcyclic (bindings (S.seen s.old).now.state) → IsTerm (S.seen s.old) a t →
        ShowsTerm (S.seen s.old) (S.seen s.new) result
        (or_raised (arity_at (followed (bindings (S.seen s.old).now.state) t))
        (type_error (codes "callable") t (S.seen s.old).now.state)) }
{
    match s.look(a) {
        Cell::Atom(_) => Ok(s.put_int(0)?),
        Cell::Comp(_, count) => Ok(s.put_int(count as i128)?),
        _ => Err(Stop::Raised(Fault::WrongKind(Kind::Callable, a))),
    }
}

/// The atom with a name that the store knows by its number.
fn put_name<S: StateStore>(alloc: Global, s: &mut S, k: u64) -> Result<Ref, AllocError>
    ensures stays { Stays (S.seen s.old) (S.seen s.new) }
    ensures ok { IfOk result (λ made. (name : List ℕ) → IsName (S.seen s.old) k name → IsTerm (S.seen s.new) made (atom name)) }
{
    let name = Text::new(alloc, s.name(k))?;
    Ok(s.put_atom(name.as_str())?)
}
