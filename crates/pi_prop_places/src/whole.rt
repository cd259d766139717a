//! All places together.
ghost use Rattle.std.specs.Prelude.{◌≡◌, ◌↔◌, IsTrue, IfOk};
ghost use Rattle.pi_prop_spec.specs.Places.{HaveValues};
ghost use Rattle.pi_prop_places.specs.Changes.{AreEmptied};

use crate::domains::nothing;
use crate::places::Places;
use std::alloc::{AllocError, Global};

/// Whether each place has a value.
pub fn have_values<P: Places>(places: &P) -> bool
    ensures { IsTrue result ↔ HaveValues (P.domains places.now) }
{
    for k in 0..places.count() {
        if places.is_empty(k) {
            return false;
        }
    }
    true
}

/// Takes all values from all places.
pub fn take_all<P: Places>(alloc: Global, places: &mut P) -> Result<(), AllocError>
    ensures { IfOk result (λ _. AreEmptied (P.domains places.old) (P.domains places.new)) }
{
    let none = nothing(alloc);
    for k in 0..places.count() {
        places.keep(alloc, k, &none)?;
    }
    Ok(())
}
