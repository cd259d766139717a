//! `::` and `notin`.
ghost use Rattle.std.specs.Prelude.{◌≡◌};
ghost use Rattle.pi_terms.specs.Tree.{Tree};
ghost use Rattle.pi_constraints.specs.State.{IsState};
ghost use Rattle.pi_constraints.specs.Store.{IsTerm, Keeps};
ghost use Rattle.pi_lib.specs.Outcomes.{ShowsOutcome, outcome_of};
ghost use Rattle.pi_settling.specs.Within.{within_goal, notin_goal};

use crate::flattening::leaves;
use crate::keeping::keep_all;
use crate::others::all_but;
use crate::sides::side_domain;
use pi_constraints::{Ref, StoredDomains};
use pi_effects::Stop;
use pi_lib::Outcome;
use std::alloc::Global;

/// `X :: D`: each item of the left side keeps the values that the right side has. A User's Guide to Picat, 'Constraints'.
pub(crate) fn within<S: StoredDomains>(
    alloc: Global,
    s: &mut S,
    left: Ref,
    right: Ref,
) -> Result<Outcome, Stop>
    ensures keeps { Keeps (S.seen s.old) (S.seen s.new) }
    ensures shows { (t u : Tree) → IsState (S.seen s.old).now.state → IsTerm (S.seen s.old) left t →
        IsTerm (S.seen s.old) right u → ShowsOutcome (S.seen s.old) (S.seen s.new) result
        (within_goal (S.seen s.old).now.state t u) }
{
    let domain = side_domain(alloc, s, right, true)?;
    let _spans = domain.spans();
    let items = leaves(alloc, s, left)?;
    let some = keep_all(alloc, s, &items, true, &domain, &domain)?;
    Ok(outcome_of(some))
}

/// `X notin D`: each item of the left side keeps the values that the right side lacks. A User's Guide to Picat, 'Constraints'.
pub(crate) fn not_in<S: StoredDomains>(
    alloc: Global,
    s: &mut S,
    left: Ref,
    right: Ref,
) -> Result<Outcome, Stop>
    ensures keeps { Keeps (S.seen s.old) (S.seen s.new) }
    ensures shows { (t u : Tree) → IsState (S.seen s.old).now.state → IsTerm (S.seen s.old) left t →
        IsTerm (S.seen s.old) right u → ShowsOutcome (S.seen s.old) (S.seen s.new) result
        (notin_goal (S.seen s.old).now.state t u) }
{
    let domain = side_domain(alloc, s, right, false)?;
    let items = leaves(alloc, s, left)?;
    let kept = all_but(alloc, &domain)?;
    let _spans = kept.spans();
    let some = keep_all(alloc, s, &items, false, &domain, &kept)?;
    Ok(outcome_of(some))
}

/// What comes of whether each item is left a value.
fn outcome_of(some: bool) -> Outcome
    ensures { result ≡ outcome_of some }
{
    if some { Outcome::Yes } else { Outcome::No }
}
