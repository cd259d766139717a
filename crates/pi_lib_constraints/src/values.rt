//! Domains of values that are given: those of a range, and those of a list.
ghost use Rattle.std.specs.Prelude.{◌≡◌, ◌∷◌, [], ◌++◌, ◌&&◌, not, neg_ℤ, true, false, IfOk, filter};
ghost use Rattle.pi_constraints.specs.Domain.{overlap};
ghost use Rattle.pi_lib.specs.Steps.{AllFit};
ghost use Rattle.pi_settling.specs.RightSide.{range_can_have, range_judged, values_judged, step_judged};
ghost use Rattle.pi_settling.specs.Values.{can_have, numbers_by};
ghost use Rattle.pi_lib_constraints.specs.Sides.{ShowsJudged};
ghost use Rattle.pi_lib_constraints.specs.declared.values.SideStop.TheVariants.{Memory};

use crate::defaults::default_domain;
use pi_constraints::{DomFault, Domain, MAX_VALUE, cut_above, cut_below, of_list};
use pi_lib::{count_by, value_after};
use std::alloc::{AllocError, Global};

/// Why there is no domain of the values that are given.
#[derive(Clone, Copy)]
pub(crate) enum SideStop {
    /// A value that no domain can have.
    TooWide,
    /// The step of a range is 0.
    NoStep,
    /// A range with a step has more than 16,777,216 values.
    TooLong,
    /// Memory ran out.
    Memory,
}

impl From<AllocError> for SideStop {
    ghost from_gives = { λ _ e. e ≡ Memory };

    fn from(_error: AllocError) -> SideStop {
        SideStop::Memory
    }
}

/// The numbers from one to another. Where it is strict, a domain has to be able to have each; else those count that it can have.
pub(crate) fn range_domain(
    alloc: Global,
    lo: i128,
    hi: i128,
    strict: bool,
) -> Result<Domain, SideStop>
    ensures { ShowsJudged result (range_judged strict lo hi) }
{
    let wide = is_too_wide(strict, range_can_have(lo, hi));
    if wide {
        return Err(SideStop::TooWide);
    }
    let made = clipped(alloc, lo, hi)?;
    Ok(made)
}

/// Whether values are too wide: where it is strict, a domain has to be able to have each.
fn is_too_wide(strict: bool, within: bool) -> bool
    ensures { result ≡ (strict && not within) }
{
    if strict { !within } else { false }
}

/// Whether a domain can have all numbers from one to another.
fn range_can_have(lo: i128, hi: i128) -> bool
    ensures { result ≡ range_can_have lo hi }
{
    if lo <= hi {
        can_have(lo) && can_have(hi)
    } else {
        true
    }
}

/// Whether a domain can have a number.
fn can_have(n: i128) -> bool
    ensures { result ≡ can_have n }
{
    let bound = i128::from(MAX_VALUE);
    -bound <= n && n <= bound
}

/// The numbers from one to another that a domain can have.
fn clipped(alloc: Global, lo: i128, hi: i128) -> Result<Domain, AllocError>
    ensures { IfOk result (λ made. made ≡ overlap (record { lo = lo; hi = hi }) (record { lo = neg_ℤ MAX_VALUE; hi = MAX_VALUE })) }
{
    let all = default_domain(alloc)?;
    let above = cut_below(alloc, &all, lo)?;
    let made = cut_above(alloc, &above, hi)?;
    let _spans = made.spans();
    Ok(made)
}

/// The numbers from one on by a step up to another, as `range_domain` judges them.
pub(crate) fn steps_domain(
    alloc: Global,
    low: i128,
    step: i128,
    high: i128,
    strict: bool,
) -> Result<Domain, SideStop>
    ensures { ShowsJudged result (step_judged strict low step high) }
{
    if step == 0 {
        return Err(SideStop::NoStep);
    }
    match count_by(low, step, high) {
        Some(count) => {
            let numbers = numbers_by(alloc, low, step, count)?;
            values_domain(alloc, &numbers, strict)
        }
        None => Err(SideStop::TooLong),
    }
}

/// So many numbers from one on by a step.
fn numbers_by(alloc: Global, low: i128, step: i128, count: u64) -> Result<Vec<i128>, AllocError>
    requires { AllFit low step count }
    ensures { IfOk result (λ made. made.items ≡ numbers_by count low step) }
{
    let mut numbers = Vec::new(alloc);
    for k in 0..count {
        numbers.push(value_after(low, step, k))?;
    }
    Ok(numbers)
}

/// These numbers. Where it is strict, a domain has to be able to have each; else those count that it can have.
pub(crate) fn values_domain(
    alloc: Global,
    numbers: &[i128],
    strict: bool,
) -> Result<Domain, SideStop>
    ensures { ShowsJudged result (values_judged strict numbers.now) }
{
    if strict {
        strict_domain(alloc, numbers)
    } else {
        loose_domain(alloc, numbers)
    }
}

fn strict_domain(alloc: Global, numbers: &[i128]) -> Result<Domain, SideStop>
    ensures { ShowsJudged result (values_judged true numbers.now) }
{
    match of_list(alloc, numbers) {
        Ok(made) => {
            let _spans = made.spans();
            Ok(made)
        }
        Err(DomFault::TooWide) => Err(SideStop::TooWide),
        Err(DomFault::Memory) => Err(SideStop::Memory),
    }
}

fn loose_domain(alloc: Global, numbers: &[i128]) -> Result<Domain, SideStop>
    ensures { ShowsJudged result (values_judged false numbers.now) }
{
    let within = those_within(alloc, numbers)?;
    match of_list(alloc, &within) {
        Ok(made) => {
            let _spans = made.spans();
            Ok(made)
        }
        Err(_) => Err(SideStop::Memory),
    }
}

/// Those of some numbers that a domain can have.
fn those_within(alloc: Global, numbers: &[i128]) -> Result<Vec<i128>, AllocError>
    ensures { IfOk result (λ made. made.items ≡ filter can_have numbers.now) }
{
    let mut within = Vec::new(alloc);
    for k in 0..numbers.len() {
        push_within(&mut within, numbers[k])?;
    }
    Ok(within)
}

/// Puts a number behind the others where a domain can have it.
fn push_within(within: &mut Vec<i128>, n: i128) -> Result<(), AllocError>
    ensures { IfOk result (λ _. within.new.items ≡ within.old.items ++ filter can_have (n ∷ [])) }
{
    if can_have(n) {
        within.push(n)?;
    }
    Ok(())
}
