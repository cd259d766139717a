//! Where variables begin.
ghost use Rattle.std.specs.Prelude.{◌≡◌, IfOk, List};
ghost use Rattle.pi_constraints.specs.declared.constraint.Item.{Item};
ghost use Rattle.pi_constraints.specs.State.{IsState};
ghost use Rattle.pi_constraints.specs.Store.{Keeps};
ghost use Rattle.pi_lib_constraints.specs.Kept.{AreRefsOf};
ghost use Rattle.pi_settling.specs.Confined.{confined};
ghost use Rattle.pi_settling.specs.Roots.{all_values};

use pi_constraints::{Domain, Ref, StoredDomains};
use pi_lib_constraints::{confine_at, default_domain};
use std::alloc::{AllocError, Global};

/// Gives each item that comes to a variable without a domain all values that a domain can have. An `Err` stands for want of
/// memory; some of them may have theirs then. A User's Guide to Picat, 'Constraints'; the bounds are own.
pub fn confine<S: StoredDomains>(alloc: Global, s: &mut S, items: &[Ref]) -> Result<(), AllocError>
    ensures keeps { Keeps (S.seen s.old) (S.seen s.new) }
    ensures ok { IfOk result (λ _. (xs : List Item) → IsState (S.seen s.old).now.state → AreRefsOf (S.seen s.old) items.now xs →
        (S.seen s.new).now.state ≡ confined (S.seen s.old).now.state xs) }
{
    let default = default_domain(alloc)?;
    confine_all(s, items, &default)
}

/// Gives each item that comes to a variable without a domain the default one.
fn confine_all<S: StoredDomains>(
    s: &mut S,
    items: &[Ref],
    default: &Domain,
) -> Result<(), AllocError>
    ensures keeps { Keeps (S.seen s.old) (S.seen s.new) }
    ensures ok { IfOk result (λ _. (xs : List Item) → IsState (S.seen s.old).now.state → default.now ≡ all_values →
        AreRefsOf (S.seen s.old) items.now xs → (S.seen s.new).now.state ≡ confined (S.seen s.old).now.state xs) }
{
    for k in 0..items.len() {
        confine_at(s, items[k], default)?;
    }
    Ok(())
}
