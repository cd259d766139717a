//! Laws of stores.
ghost use Rattle.std.specs.Prelude.{◌≡◌, IfOk};

use crate::domain::Domain;
use crate::store::StateStore;
use std::alloc::AllocError;

/// A mark, two variables, a domain and a return leave the state and its terms as they were, over any store.
pub fn changes_are_undone<S: StateStore>(store: &mut S, values: &Domain) -> Result<(), AllocError>
    ensures { IfOk result (λ _. (S.seen store.new).now ≡ (S.seen store.old).now) }
{
    let mark = store.mark()?;
    store.new_var()?;
    let variable = store.new_var()?;
    store.set_domain(variable, values)?;
    store.undo(&mark);
    Ok(())
}
