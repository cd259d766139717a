//! Relations of terms by the standard order. A User's Guide to Picat, 'Term Comparison'; the order is own.
ghost use Rattle.std.specs.Prelude.{◌≡◌, Ok};
ghost use Rattle.pi_terms.specs.Tree.{Tree};
ghost use Rattle.pi_constraints.specs.Value.{IsAcyclic};
ghost use Rattle.pi_constraints.specs.State.{bindings};
ghost use Rattle.pi_constraints.specs.Store.{IsTerm};
ghost use Rattle.pi_effects.specs.Comparing.{value_order};
ghost use Rattle.pi_effects.specs.Results.{ShowsSame};
ghost use Rattle.pi_lib_builtin.specs.Ordered.{is_ordered};

use pi_constraints::{Ref, StateStore};
use pi_effects::Stop;
use pi_unify::compare;
use std::alloc::Global;
use std::cmp::Ordering;

/// A relation of two terms by the standard order of their values.
#[derive(Clone, Copy)]
pub enum TermRelation {
    /// `==`
    Same,
    /// `!==`
    Different,
    /// `@<`
    Before,
    /// `@=<`
    NotAfter,
    /// `@>`
    After,
    /// `@>=`
    NotBefore,
}

impl TermRelation {
    /// Whether it holds of two terms that stand so.
    fn holds(self, order: Ordering) -> bool
        ensures { result ≡ is_ordered self order }
    {
        match self {
            TermRelation::Same => order.is_eq(),
            TermRelation::Different => order.is_ne(),
            TermRelation::Before => order.is_lt(),
            TermRelation::NotAfter => order.is_le(),
            TermRelation::After => order.is_gt(),
            TermRelation::NotBefore => order.is_ge(),
        }
    }
}

/// Whether a relation holds of the values of two terms.
pub fn are_ordered<S: StateStore>(
    alloc: Global,
    s: &S,
    relation: TermRelation,
    a: Ref,
    b: Ref,
) -> Result<bool, Stop>
    ensures { (t u : Tree) → IsAcyclic (bindings (S.seen s.now).now.state) → IsTerm (S.seen s.now) a t →
        IsTerm (S.seen s.now) b u → ShowsSame (S.seen s.now) result
        (Ok (is_ordered relation (value_order (S.seen s.now).now.state t u))) }
{
    let order = compare(alloc, s, a, b)?;
    Ok(relation.holds(order))
}
