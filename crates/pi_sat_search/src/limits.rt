//! Whether a search may be made of domains and constraints.
ghost use Rattle.std.specs.Prelude.{◌↔◌, ◌≢◌, ◌<◌, ℕ, IsTrue, All, length, get_or};
ghost use Rattle.pi_constraints.specs.Constraint.{IsWithinLimits};
ghost use Rattle.pi_constraints.specs.declared.var_domain.VarDomain.{VarDomain};
ghost use Rattle.pi_sat_search.specs.Steps.{IsOnce};

use pi_constraints::{Constraint, VarDomain};
use pi_prop_filters::is_within_limits;

/// Whether each constraint is within the limits of those that are posted.
pub(crate) fn are_within_limits(constraints: &[Constraint]) -> bool
    ensures { IsTrue result ↔ All IsWithinLimits constraints.now }
{
    for constraint in constraints {
        if !is_within_limits(constraint) {
            return false;
        }
    }
    true
}

/// Whether no two domains are given for one variable.
pub(crate) fn are_once(domains: &[VarDomain]) -> bool
    ensures { IsTrue result ↔ IsOnce domains.now }
{
    for i in 0..domains.len() {
        if !stands_first(domains, i) {
            return false;
        }
    }
    true
}

/// Whether no domain before one is given for its variable.
fn stands_first(domains: &[VarDomain], i: usize) -> bool
    requires { i < length domains.now }
    ensures { IsTrue result ↔ ((j : ℕ) (other : VarDomain) → j < i →
        (get_or domains.now j other).var ≢ (get_or domains.now i other).var) }
{
    let var = domains[i].var;
    for j in 0..i {
        if domains[j].var == var {
            return false;
        }
    }
    true
}
