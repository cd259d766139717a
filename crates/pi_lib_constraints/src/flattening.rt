//! The integers and variables that stand in a term at any depth.
ghost use Rattle.std.specs.Prelude.{◌≡◌, ◌++◌, reverse, IfOk};
ghost use Rattle.pi_terms.specs.Tree.{Tree};
ghost use Rattle.pi_constraints.specs.State.{bindings};
ghost use Rattle.pi_constraints.specs.Store.{IsTerm};
ghost use Rattle.pi_unify.specs.Terms.{HoldsNoCycle, IsGiven};
ghost use Rattle.pi_settling.specs.Asked.{flat_items};
ghost use Rattle.pi_lib_constraints.specs.Flattened.{ShowsFlat, AreGiven, ShowsStep, ShowsLeft};

use pi_constraints::{Cell, Ref, StateStore};
use pi_effects::{Fault, Kind, Stop};
use pi_lib_builtin::collection_items;
use std::alloc::{AllocError, Global};

/// The integers and variables that a term is or that stand in it, in lists and arrays at any depth, from the left. The first
/// term that is none is told: `type_error(integer,T)`. No recursion goes by the term: what is still to be looked at lies on a
/// stack. A User's Guide to Picat, 'Constraints'; the exception is own.
pub fn leaves<S: StateStore>(alloc: Global, s: &S, term: Ref) -> Result<Vec<Ref>, Stop>
    ensures { (t : Tree) → HoldsNoCycle (S.seen s.now) → IsTerm (S.seen s.now) term t →
        ShowsFlat (S.seen s.now) result (flat_items (bindings (S.seen s.now).now.state) t) }
{
    let mut found = Vec::new(alloc);
    let mut left = Vec::new(alloc);
    left.push(term)?;
    for _ in 0..u64::MAX {
        let Some(at) = left.pop() else {
            return Ok(found);
        };
        look_at(alloc, s, at, &mut found, &mut left)?;
    }
    Err(Stop::Memory)
}

/// Looks at the root of a term: it is one more that is found, or what stands in it is left to be looked at.
fn look_at<S: StateStore>(
    alloc: Global,
    s: &S,
    at: Ref,
    found: &mut Vec<Ref>,
    left: &mut Vec<Ref>,
) -> Result<(), Stop>
    ensures { HoldsNoCycle (S.seen s.now) → IsGiven (S.seen s.now) at → AreGiven (S.seen s.now) left.old.items →
        ShowsStep (S.seen s.now) at found.old.items left.old.items found.new.items left.new.items result }
{
    match s.look(at) {
        Cell::Var(_) => {
            found.push(at)?;
            Ok(())
        }
        Cell::Int(_) => {
            found.push(at)?;
            Ok(())
        }
        Cell::Atom(_) => leave_items(alloc, s, at, left),
        Cell::Comp(_, _) => leave_items(alloc, s, at, left),
    }
}

/// Leaves what stands in a list or an array to be looked at. Any other term is none that may stand there.
fn leave_items<S: StateStore>(
    alloc: Global,
    s: &S,
    at: Ref,
    left: &mut Vec<Ref>,
) -> Result<(), Stop>
    ensures { HoldsNoCycle (S.seen s.now) → IsGiven (S.seen s.now) at → AreGiven (S.seen s.now) left.old.items →
        ShowsLeft (S.seen s.now) at left.old.items left.new.items result }
{
    match collection_items(alloc, s, at) {
        Ok(items) => {
            push_reversed(left, &items)?;
            Ok(())
        }
        Err(Stop::Raised(_)) => Err(Stop::Raised(Fault::WrongKind(Kind::Integer, at))),
        Err(Stop::Memory) => Err(Stop::Memory),
    }
}

/// Pushes Refs, the first one last.
fn push_reversed(left: &mut Vec<Ref>, items: &[Ref]) -> Result<(), AllocError>
    ensures { IfOk result (λ _. left.new.items ≡ left.old.items ++ reverse items.now) }
{
    for k in (0..items.len()).rev() {
        left.push(items[k])?;
    }
    Ok(())
}
