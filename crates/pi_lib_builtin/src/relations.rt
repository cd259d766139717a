//! Comparisons of integers. A User's Guide to Picat, 'Arithmetic'.
ghost use Rattle.std.specs.Prelude.{◌≡◌, Ok};
ghost use Rattle.pi_terms.specs.Tree.{Tree};
ghost use Rattle.pi_constraints.specs.Value.{IsAcyclic};
ghost use Rattle.pi_constraints.specs.State.{bindings};
ghost use Rattle.pi_constraints.specs.Store.{IsTerm};
ghost use Rattle.pi_effects.specs.Answer.{integers_then};
ghost use Rattle.pi_effects.specs.Results.{ShowsSame};
ghost use Rattle.pi_lib_builtin.specs.Relations.{holds};

use pi_constraints::{Ref, StateStore};
use pi_effects::{Stop, integer};

/// A relation of two integers.
#[derive(Clone, Copy)]
pub enum Relation {
    /// `<`
    Less,
    /// `=<`
    AtMost,
    /// `>`
    Greater,
    /// `>=`
    AtLeast,
    /// `=:=`
    Equal,
    /// `=\=`
    Unequal,
}

impl Relation {
    /// Whether it holds of two integers.
    fn holds(self, m: i128, n: i128) -> bool
        ensures { result ≡ holds self m n }
    {
        match self {
            Relation::Less => m < n,
            Relation::AtMost => m <= n,
            Relation::Greater => n < m,
            Relation::AtLeast => n <= m,
            Relation::Equal => m == n,
            Relation::Unequal => m != n,
        }
    }
}

/// Whether a relation holds of two terms, which have to be integers. It takes no memory.
pub fn are_related<S: StateStore>(s: &S, relation: Relation, a: Ref, b: Ref) -> Result<bool, Stop>
    ensures { (t u : Tree) → IsAcyclic (bindings (S.seen s.now).now.state) → IsTerm (S.seen s.now) a t →
        IsTerm (S.seen s.now) b u → ShowsSame (S.seen s.now) result
        (integers_then (S.seen s.now).now.state t u (λ m n. Ok (holds relation m n))) }
{
    let m = integer(s, a)?;
    let n = integer(s, b)?;
    Ok(relation.holds(m, n))
}
