//! What an alternative leaves.
ghost use Rattle.std.specs.Prelude.{◌≡◌, ◌&&◌, ℤ, IfOk, List, Some};
ghost use Rattle.pi_constraints.specs.declared.domain.Span.{Span};
ghost use Rattle.pi_constraints.specs.Domain.{has_value};
ghost use Rattle.pi_constraints.specs.State.{IsState, domain_of};
ghost use Rattle.pi_constraints.specs.Store.{Keeps};
ghost use Rattle.pi_label.specs.Words.{alternative_of};
ghost use Rattle.pi_lib_constraints.specs.Kept.{IsLeft};
ghost use Rattle.pi_settling.specs.Choices.{Alternative, is_value, at_most, above, allows, left_by, narrowed_to};

use crate::values::has;
use pi_constraints::{Domain, StateStore, StoredDomains, cut_above, cut_below, min};
use pi_label::Choice;
use pi_lib_constraints::{bind_to_integer, leave_values};
use std::alloc::{AllocError, Global};

/// Leaves a variable with a domain the values that an alternative allows: it is bound where that is one. False exactly where it
/// is none. An `Err` stands for want of memory. A User's Guide to Picat, 'Constraints'; that a variable with one value is bound
/// to it is own.
pub fn narrow<S: StoredDomains>(
    alloc: Global,
    s: &mut S,
    variable: u64,
    choice: Choice,
) -> Result<bool, AllocError>
    ensures keeps { Keeps (S.seen s.old) (S.seen s.new) }
    ensures left { IfOk result (λ some. (d : List Span) → IsState (S.seen s.old).now.state →
        domain_of (S.seen s.old).now.state variable ≡ Some d → IsLeft some (S.seen s.new).now.state
        (narrowed_to (S.seen s.old).now.state variable (left_by (alternative_of choice) d))) }
{
    match choice {
        Choice::Is(n) => keep_value(s, variable, n),
        Choice::AtMost(n) => keep_up_to(alloc, s, variable, n),
        Choice::Above(n) => keep_above(alloc, s, variable, n),
    }
}

/// Leaves a variable with a domain this value.
fn keep_value<S: StoredDomains>(s: &mut S, variable: u64, n: i64) -> Result<bool, AllocError>
    ensures keeps { Keeps (S.seen s.old) (S.seen s.new) }
    ensures left { IfOk result (λ some. (d : List Span) → IsState (S.seen s.old).now.state →
        domain_of (S.seen s.old).now.state variable ≡ Some d → IsLeft some (S.seen s.new).now.state
        (narrowed_to (S.seen s.old).now.state variable (left_by (is_value n) d))) }
{
    if !has(s, variable, n) {
        return Ok(false);
    }
    let at = s.var_ref(variable);
    bind_to_integer(s, at, n)?;
    Ok(true)
}

/// Leaves a variable with a domain its values up to `n`.
fn keep_up_to<S: StateStore>(
    alloc: Global,
    s: &mut S,
    variable: u64,
    n: i64,
) -> Result<bool, AllocError>
    ensures keeps { Keeps (S.seen s.old) (S.seen s.new) }
    ensures left { IfOk result (λ some. (d : List Span) → IsState (S.seen s.old).now.state →
        domain_of (S.seen s.old).now.state variable ≡ Some d → IsLeft some (S.seen s.new).now.state
        (narrowed_to (S.seen s.old).now.state variable (left_by (at_most n) d))) }
{
    let found = domain(alloc, s, variable)?;
    let Some(had) = found else {
        return Ok(false);
    };
    let left = cut_above(alloc, &had, i128::from(n))?;
    let some = leave(s, variable, &left)?;
    Ok(some)
}

/// Leaves a variable with a domain its values above `n`.
fn keep_above<S: StateStore>(
    alloc: Global,
    s: &mut S,
    variable: u64,
    n: i64,
) -> Result<bool, AllocError>
    ensures keeps { Keeps (S.seen s.old) (S.seen s.new) }
    ensures left { IfOk result (λ some. (d : List Span) → IsState (S.seen s.old).now.state →
        domain_of (S.seen s.old).now.state variable ≡ Some d → IsLeft some (S.seen s.new).now.state
        (narrowed_to (S.seen s.old).now.state variable (left_by (above n) d))) }
{
    let found = domain(alloc, s, variable)?;
    let Some(had) = found else {
        return Ok(false);
    };
    let left = cut_below(alloc, &had, i128::from(n) + 1)?;
    let some = leave(s, variable, &left)?;
    Ok(some)
}

/// A copy of a variable's domain.
fn domain<S: StateStore>(alloc: Global, s: &S, variable: u64) -> Result<Option<Domain>, AllocError>
    ensures { IfOk result (λ found. (d : List Span) → IsState (S.seen s.now).now.state →
        domain_of (S.seen s.now).now.state variable ≡ Some d → found ≡ Some d) }
{
    let at = s.var_ref(variable);
    let found = s.domain(alloc, at)?;
    Ok(found)
}

/// Leaves a variable with a domain those of its values that an alternative allows.
fn leave<S: StateStore>(s: &mut S, variable: u64, left: &Domain) -> Result<bool, AllocError>
    ensures keeps { Keeps (S.seen s.old) (S.seen s.new) }
    ensures left { IfOk result (λ some. (a : Alternative) (d : List Span) → IsState (S.seen s.old).now.state →
        domain_of (S.seen s.old).now.state variable ≡ Some d →
        ((m : ℤ) → has_value left.now m ≡ (has_value d m && allows a m)) → IsLeft some (S.seen s.new).now.state
        (narrowed_to (S.seen s.old).now.state variable (left_by a d))) }
{
    let _spans = left.spans();
    let Some(least) = min(left) else {
        return Ok(false);
    };
    let at = s.var_ref(variable);
    leave_values(s, at, left, least)?;
    Ok(true)
}
