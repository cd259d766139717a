//! The default domain.
ghost use Rattle.std.specs.Prelude.{◌≡◌, ℕ, IfOk};
ghost use Rattle.pi_constraints.specs.declared.constraint.Item.{Item};
ghost use Rattle.pi_constraints.specs.State.{IsState};
ghost use Rattle.pi_settling.specs.Roots.{all_values, given};
ghost use Rattle.pi_lib_constraints.specs.Kept.{LeadsToVariable};

use pi_constraints::{Domain, MAX_VALUE, Ref, Span, StateStore};
use std::alloc::{AllocError, Global};

/// All values that a domain can have: the domain of a variable of a constraint or a labelling that was given none. (Own.)
pub fn default_domain(alloc: Global) -> Result<Domain, AllocError>
    ensures { IfOk result (λ made. made ≡ all_values) }
{
    let mut spans = Vec::new(alloc);
    spans.push(Span {
        lo: -MAX_VALUE,
        hi: MAX_VALUE,
    })?;
    Ok(Domain::new(spans))
}

/// The values that an unbound variable has: all, where it has no domain.
pub(crate) fn values_of<S: StateStore>(alloc: Global, s: &S, at: Ref) -> Result<Domain, AllocError>
    ensures { IfOk result (λ found. (n : ℕ) → IsState (S.seen s.now).now.state → LeadsToVariable (S.seen s.now) at n →
        found ≡ given (S.seen s.now).now.state (Item.Var n)) }
{
    let found = s.domain(alloc, at)?;
    match found {
        Some(domain) => Ok(domain),
        None => {
            let all = default_domain(alloc)?;
            Ok(all)
        }
    }
}
