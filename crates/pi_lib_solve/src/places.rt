//! The variable that an item comes to.
ghost use Rattle.pi_constraints.specs.declared.constraint.Item.{Item};
ghost use Rattle.pi_constraints.specs.State.{IsState};
ghost use Rattle.pi_constraints.specs.Store.{IsTerm};
ghost use Rattle.pi_lib_constraints.specs.Kept.{item_term};
ghost use Rattle.pi_settling.specs.Choices.{pending_at};
ghost use Rattle.pi_settling.specs.Roots.{root_item};
ghost use Rattle.pi_lib_solve.specs.Picked.{ShowsPicked};

use pi_constraints::{Cell, Ref, StoredDomains};

/// The unbound variable with a domain that an item comes to, by its number; None where it comes to none.
pub(crate) fn pending<S: StoredDomains>(s: &S, item: Ref) -> Option<u64>
    ensures { (x : Item) → IsState (S.seen s.now).now.state → IsTerm (S.seen s.now) item (item_term x) →
        ShowsPicked (S.seen s.now).now.state result (pending_at (S.seen s.now).now.state (root_item (S.seen s.now).now.state x)) }
{
    let Cell::Var(n) = s.look(item) else {
        return None;
    };
    if s.span_count(n) == 0 {
        return None;
    }
    Some(n)
}
