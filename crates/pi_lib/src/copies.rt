//! Copies of terms, as a function.
ghost use Rattle.pi_terms.specs.Tree.{Tree};
ghost use Rattle.pi_constraints.specs.Value.{value};
ghost use Rattle.pi_constraints.specs.State.{bindings};
ghost use Rattle.pi_constraints.specs.Store.{IsTerm};
ghost use Rattle.pi_unify.specs.Copying.{MakesSome};
ghost use Rattle.pi_unify.specs.Terms.{HoldsNoCycle};
ghost use Rattle.pi_effects.specs.Making.{copied};
ghost use Rattle.pi_effects.specs.Results.{ShowsEffect};

use pi_constraints::{Ref, StateStore};
use pi_effects::Stop;
use std::alloc::Global;

/// `copy_term(T)`: the value of a term with new variables in place of its own. A value past 16,777,216 cells raises
/// `term_too_large`. A User's Guide to Picat, 'Data Types, Operators, and Built-ins'; the limit is own.
pub fn copy_term<S: StateStore>(alloc: Global, s: &mut S, term: Ref) -> Result<Ref, Stop>
    ensures makes { MakesSome (S.seen s.old) (S.seen s.new) }
    ensures shows { (t : Tree) → HoldsNoCycle (S.seen s.old) → IsTerm (S.seen s.old) term t →
        ShowsEffect (S.seen s.old) (S.seen s.new) result
        (copied (S.seen s.old).now.state (value (bindings (S.seen s.old).now.state) t)) }
{
    let made = pi_unify::copy_term(alloc, s, term)?;
    Ok(made)
}
