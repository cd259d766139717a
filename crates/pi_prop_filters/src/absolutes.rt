//! The filter of absolute values.
ghost use Rattle.std.specs.Prelude.{◌≡◌, IfOk, length, pos, neg_ℤ};
ghost use Rattle.std.specs.Int.{int_max};
ghost use Rattle.pi_constraints.specs.Domain.{IsWithinBounds};
ghost use Rattle.pi_prop_spec.specs.Rules.{AbsoluteKeeps};
ghost use Rattle.pi_prop_places.specs.Changes.{AreFiltered};

use crate::corners::Ends;
use pi_prop_places::{Places, keep_between};
use std::alloc::{AllocError, Global};

/// Leaves the places of an absolute value, it at 0 and its operand at 1, the values that its filter keeps. It looks at the
/// ends of the domains alone.
pub fn filter_absolute<P: Places>(alloc: Global, places: &mut P) -> Result<(), AllocError>
    requires { length (P.domains places.old) ≡ 2 }
    ensures { IfOk result (λ _. AreFiltered (AbsoluteKeeps (P.domains places.old)) (P.domains places.old) (P.domains places.new)) }
{
    let value = Ends::at(places, 0);
    let sizes = magnitudes(Ends::at(places, 1));
    keep_between(alloc, places, 0, sizes.lo, sizes.hi)?;
    keep_between(alloc, places, 1, -value.hi, value.hi)?;
    Ok(())
}

/// The least and the greatest absolute value of the numbers between the ends.
fn magnitudes(operand: Ends) -> Ends
    requires low { IsWithinBounds operand.lo }
    requires high { IsWithinBounds operand.hi }
    ensures lo { result.lo ≡ int_max (int_max operand.lo (neg_ℤ operand.hi)) (pos 0) }
    ensures hi { result.hi ≡ int_max (neg_ℤ operand.lo) operand.hi }
{
    Ends {
        lo: operand.lo.max(-operand.hi).max(0),
        hi: (-operand.lo).max(operand.hi),
    }
}
