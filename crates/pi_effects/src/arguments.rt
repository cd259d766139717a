//! Arguments that have to be integers.
ghost use Rattle.std.specs.Prelude.{Ok};
ghost use Rattle.pi_terms.specs.Tree.{Tree};
ghost use Rattle.pi_constraints.specs.Value.{IsAcyclic};
ghost use Rattle.pi_constraints.specs.State.{bindings};
ghost use Rattle.pi_constraints.specs.Store.{IsTerm};
ghost use Rattle.pi_effects.specs.Answer.{integer_then};
ghost use Rattle.pi_effects.specs.Results.{ShowsSame};

use crate::fault::{Fault, Kind, Stop};
use pi_constraints::{Cell, Ref, StateStore};

/// The integer that an argument is; any other term is of a wrong kind. It takes no memory.
pub fn integer<S: StateStore>(s: &S, term: Ref) -> Result<i128, Stop>
    ensures { (t : Tree) → IsAcyclic (bindings (S.seen s.now).now.state) → IsTerm (S.seen s.now) term t →
        ShowsSame (S.seen s.now) result (integer_then (S.seen s.now).now.state t (λ n. Ok n)) }
{
    match s.look(term) {
        Cell::Int(n) => Ok(n),
        _ => Err(Stop::Raised(Fault::WrongKind(Kind::Integer, term))),
    }
}
