//! Ranges: lists of integers in steps.
ghost use Rattle.std.specs.Prelude.{◌≡◌, ◌≢◌, ℕ, ◌<◌, ◌≤◌, pos, ◌+ℤ◌, ◌*ℤ◌, FitsSigned, IfOk, MatchOption};
ghost use Rattle.std.specs.Int.{w128};
ghost use Rattle.pi_terms.specs.Tree.{Tree, int};
ghost use Rattle.pi_constraints.specs.Store.{IsTerm, Stays};
ghost use Rattle.pi_unify.specs.Terms.{HoldsNoCycle};
ghost use Rattle.pi_effects.specs.Answer.{integer_then, integers_then};
ghost use Rattle.pi_effects.specs.Items.{list_of};
ghost use Rattle.pi_effects.specs.Ranges as spec;
ghost use Rattle.pi_effects.specs.Inner.{range_count as count_in};
ghost use Rattle.pi_effects.specs.Results.{ShowsTerm};
ghost use Rattle.pi_lib.specs.Steps.{value_after, AllFit};

use crate::pairs::pair_at;
use crate::sizes::MOST_ITEMS;
use pi_constraints::{Ref, StateStore};
use pi_effects::{Fault, Kind, Stop, integer};
use std::alloc::AllocError;

/// `L..H`: the integers from one to another. Arguments that are no integers raise `type_error`, the first one from the left;
/// more than 16,777,216 values raise `range_too_long`. A User's Guide to Picat, 'Data Types, Operators, and Built-ins'; what
/// is raised is own.
pub fn range<S: StateStore>(s: &mut S, low: Ref, high: Ref) -> Result<Ref, Stop>
    ensures stays { Stays (S.seen s.old) (S.seen s.new) }
    ensures shows { (t u : Tree) → HoldsNoCycle (S.seen s.old) → IsTerm (S.seen s.old) low t →
        IsTerm (S.seen s.old) high u → ShowsTerm (S.seen s.old) (S.seen s.new) result
        (integers_then (S.seen s.old).now.state t u (λ low high. spec.range low (pos 1) high)) }
{
    let low = integer(s, low)?;
    let high = integer(s, high)?;
    put_range(s, low, 1, high)
}

/// `L..S..H`: the integers from one on in steps up to another. Arguments that are no integers raise `type_error`, the first
/// one from the left, a step of 0 raises `bad_range`, more than 16,777,216 values raise `range_too_long`. A User's Guide to
/// Picat, 'Data Types, Operators, and Built-ins'; what is raised is own.
pub fn range_by<S: StateStore>(s: &mut S, low: Ref, step: Ref, high: Ref) -> Result<Ref, Stop>
    ensures stays { Stays (S.seen s.old) (S.seen s.new) }
    ensures shows { (t u w : Tree) → HoldsNoCycle (S.seen s.old) → IsTerm (S.seen s.old) low t →
        IsTerm (S.seen s.old) step u → IsTerm (S.seen s.old) high w →
        ShowsTerm (S.seen s.old) (S.seen s.new) result
        (integer_then (S.seen s.old).now.state t (λ low.
        integers_then (S.seen s.old).now.state u w (λ step high. spec.range_by low step high))) }
{
    let low = integer(s, low)?;
    let step = integer(s, step)?;
    let high = integer(s, high)?;
    if step == 0 {
        return Err(Stop::Raised(Fault::BadRange));
    }
    put_range(s, low, step, high)
}

/// `':='/2`, which lowered programs call: how many values the range from a number by a step to another has, these two in an
/// array. What is raised is what the range itself raises; what is no array of two raises `type_error`, behind the first number.
pub fn range_count<S: StateStore>(s: &mut S, low: Ref, step_and_high: Ref) -> Result<Ref, Stop>
    ensures stays { Stays (S.seen s.old) (S.seen s.new) }
    ensures shows { (t u : Tree) → HoldsNoCycle (S.seen s.old) → IsTerm (S.seen s.old) low t →
        IsTerm (S.seen s.old) step_and_high u → ShowsTerm (S.seen s.old) (S.seen s.new) result
        (count_in (S.seen s.old).now.state t u) }
{
    let low = integer(s, low)?;
    let Some((step, high)) = pair_at(s, step_and_high) else {
        return Err(Stop::Raised(Fault::WrongKind(Kind::Pair, step_and_high)));
    };
    let step = integer(s, step)?;
    let high = integer(s, high)?;
    if step == 0 {
        return Err(Stop::Raised(Fault::BadRange));
    }
    put_count(s, low, step, high)
}

/// Puts how many values a range has.
fn put_count<S: StateStore>(s: &mut S, low: i128, step: i128, high: i128) -> Result<Ref, Stop>
    requires { step ≢ pos 0 }
    ensures stays { Stays (S.seen s.old) (S.seen s.new) }
    ensures shows { ShowsTerm (S.seen s.old) (S.seen s.new) result (spec.counted (λ count. int (pos count)) low step high) }
{
    match count_by(low, step, high) {
        Some(count) => Ok(s.put_int(i128::from(count))?),
        None => Err(Stop::Raised(Fault::RangeTooLong)),
    }
}

/// Puts the list of the values of a range.
fn put_range<S: StateStore>(s: &mut S, low: i128, step: i128, high: i128) -> Result<Ref, Stop>
    requires { step ≢ pos 0 }
    ensures stays { Stays (S.seen s.old) (S.seen s.new) }
    ensures shows { ShowsTerm (S.seen s.old) (S.seen s.new) result (spec.range low step high) }
{
    match count_by(low, step, high) {
        Some(count) => {
            let made = put_values(s, low, step, count)?;
            Ok(made)
        }
        None => Err(Stop::Raised(Fault::RangeTooLong)),
    }
}

/// How many values a range has; None exactly where there are more than 16,777,216.
pub fn count_by(low: i128, step: i128, high: i128) -> Option<u64>
    requires { step ≢ pos 0 }
    ensures { MatchOption result (spec.most_items < spec.count_by low step high) (λ count. (count ≡ spec.count_by low step high) ×
        (count ≤ spec.most_items)) }
{
    let is_empty = if step > 0 { high < low } else { low < high };
    if is_empty {
        return Some(0);
    }
    let steps = low.abs_diff(high) / step.unsigned_abs();
    if steps >= MOST_ITEMS {
        return None;
    }
    Some(steps as u64 + 1)
}

/// Puts the list of so many values, from the last one on.
fn put_values<S: StateStore>(
    s: &mut S,
    low: i128,
    step: i128,
    count: u64,
) -> Result<Ref, AllocError>
    requires { AllFit low step count }
    ensures stays { Stays (S.seen s.old) (S.seen s.new) }
    ensures ok { IfOk result (λ made. IsTerm (S.seen s.new) made (list_of (spec.values_by count low step))) }
{
    let mut list = s.put_atom("[]")?;
    for k in (0..count).rev() {
        let value = s.put_int(value_after(low, step, k))?;
        list = s.put_comp("[|]", &[value, list])?;
    }
    Ok(list)
}

/// The value that a number becomes in so many steps.
pub fn value_after(low: i128, step: i128, steps: u64) -> i128
    requires { FitsSigned w128 (value_after low step steps) }
    ensures { result ≡ value_after low step steps }
{
    low.wrapping_add(i128::from(steps).wrapping_mul(step))
}
