//! How many items are asked for.
ghost use Rattle.std.specs.Prelude.{◌≡◌, ◌<◌, ◌≤◌, IfOk, IfErr};
ghost use Rattle.pi_terms.specs.Tree.{Tree};
ghost use Rattle.pi_constraints.specs.State.{bindings, followed};
ghost use Rattle.pi_constraints.specs.Store.{IsTerm};
ghost use Rattle.pi_unify.specs.Terms.{HoldsNoCycle};
ghost use Rattle.pi_effects.specs.Exception.{bad_index};
ghost use Rattle.pi_effects.specs.Answer.{or_raised};
ghost use Rattle.pi_effects.specs.Ranges.{most_items};
ghost use Rattle.pi_effects.specs.Making.{size_at};
ghost use Rattle.pi_effects.specs.Results.{ShowsSame};
ghost use Rattle.pi_effects.specs.declared.fault.Fault.{Fault};
ghost use Rattle.pi_effects.specs.declared.fault.Stop.{Stop};

use pi_constraints::{Cell, Ref, StateStore};
use pi_effects::{Fault, Stop};

/// The most items of a range, and of a list or an array of new variables. (Own.)
pub const MOST_ITEMS: u128 = 16_777_216;

/// The size that an argument is: an integer from 0. It takes no memory.
pub fn size<S: StateStore>(s: &S, term: Ref) -> Result<u128, Stop>
    ensures { (t : Tree) → HoldsNoCycle (S.seen s.now) → IsTerm (S.seen s.now) term t →
        ShowsSame (S.seen s.now) result (or_raised (size_at (followed (bindings (S.seen s.now).now.state) t))
        (bad_index t (S.seen s.now).now.state)) }
{
    let Cell::Int(n) = s.look(term) else {
        return Err(Stop::Raised(Fault::BadIndex(term)));
    };
    if n < 0 {
        return Err(Stop::Raised(Fault::BadIndex(term)));
    }
    Ok(n.unsigned_abs())
}

/// The same number of items, where there may be so many.
pub fn allowed(count: u128) -> Result<u64, Stop>
    ensures ok { IfOk result (λ n. (n ≡ count) × (n ≤ most_items)) }
    ensures err { IfErr result (λ stop. (stop ≡ Stop.Raised Fault.RangeTooLong) × (most_items < count)) }
{
    if count > MOST_ITEMS {
        return Err(Stop::Raised(Fault::RangeTooLong));
    }
    Ok(count as u64)
}
