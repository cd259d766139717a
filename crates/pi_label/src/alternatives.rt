//! The alternatives of a variable, one after the other.
ghost use Rattle.std.specs.Prelude.{◌≡◌, ◌+ℤ◌, IfOk, List, [], Some, option_map, slice_get};
ghost use Rattle.pi_constraints.specs.declared.domain.Span.{Span};
ghost use Rattle.pi_constraints.specs.Domain.{IsDomain, IsWithinBounds};
ghost use Rattle.pi_settling.specs.Choices.{is_value, at_most, above, alternatives, halved as half_of};
ghost use Rattle.pi_label.specs.Words.{value_word, alternative_of};
ghost use Rattle.pi_label.specs.Follows.{Follows};
ghost use Rattle.pi_label.specs.Beside.{IsNextAbove, IsNextBelow, AreEnds, ShowsEnds};

use crate::options::{Options, ValueWord};
use pi_constraints::{Domain, Span, cut_above, cut_below, max, min};
use std::alloc::{AllocError, Global};

/// What an alternative asks of a variable: this value, at most this value, or a greater one.
#[derive(Clone, Copy)]
pub enum Choice {
    Is(i64),
    AtMost(i64),
    Above(i64),
}

/// The alternative of a domain with values that follows `after`, and the first one where that is None; None exactly where
/// none follows. It looks a fixed number of times at each span.
pub fn choices(
    alloc: Global,
    options: &Options,
    d: &Domain,
    after: Option<Choice>,
) -> Result<Option<Choice>, AllocError>
    ensures { IfOk result (λ found. (d.now ≡ [] → ⊥) →
        Follows (alternatives (value_word options.now.value) d.now) (option_map alternative_of after)
        (option_map alternative_of found)) }
{
    let Some(ends) = ends(d) else {
        return Ok(None);
    };
    match after {
        None => Ok(Some(first_choice(options.value, ends))),
        Some(choice) => behind(alloc, options.value, d, choice),
    }
}

/// The first alternative of a domain with these ends.
pub fn first_choice(word: ValueWord, ends: Span) -> Choice
    requires low { IsWithinBounds ends.lo }
    requires high { IsWithinBounds ends.hi }
    ensures { (d : List Span) → IsDomain d → AreEnds d ends →
        Some (alternative_of result) ≡ slice_get (alternatives (value_word word) d) 0 }
{
    match word {
        ValueWord::Up => Choice::Is(ends.lo),
        ValueWord::Down => Choice::Is(ends.hi),
        ValueWord::Split => Choice::AtMost(halved(ends.lo, ends.hi)),
        ValueWord::ReverseSplit => Choice::Above(halved(ends.lo, ends.hi)),
    }
}

/// The alternative behind another one.
fn behind(
    alloc: Global,
    word: ValueWord,
    d: &Domain,
    choice: Choice,
) -> Result<Option<Choice>, AllocError>
    requires { IsDomain d.now }
    ensures { IfOk result (λ found. Follows (alternatives (value_word word) d.now) (Some (alternative_of choice))
        (option_map alternative_of found)) }
{
    match choice {
        Choice::Is(n) => beside(alloc, word, d, n),
        Choice::AtMost(n) => Ok(upper_half(word, n)),
        Choice::Above(n) => Ok(lower_half(word, n)),
    }
}

/// The alternative behind a value.
fn beside(alloc: Global, word: ValueWord, d: &Domain, n: i64) -> Result<Option<Choice>, AllocError>
    requires { IsDomain d.now }
    ensures { IfOk result (λ found. Follows (alternatives (value_word word) d.now) (Some (is_value n)) (option_map alternative_of found)) }
{
    match word {
        ValueWord::Up => {
            let found = value_above(alloc, d, n)?;
            Ok(value(found))
        }
        ValueWord::Down => {
            let found = value_below(alloc, d, n)?;
            Ok(value(found))
        }
        ValueWord::Split => Ok(None),
        ValueWord::ReverseSplit => Ok(None),
    }
}

fn value(found: Option<i64>) -> Option<Choice>
    ensures { option_map alternative_of result ≡ option_map is_value found }
{
    match found {
        Some(n) => Some(Choice::Is(n)),
        None => None,
    }
}

/// The alternative after the lower half, which ends at `n`: the upper one, and None where the word tries no half or tries the
/// upper one first.
pub fn upper_half(word: ValueWord, n: i64) -> Option<Choice>
    ensures { (d : List Span) → Follows (alternatives (value_word word) d) (Some (at_most n)) (option_map alternative_of result) }
{
    match word {
        ValueWord::Up => None,
        ValueWord::Down => None,
        ValueWord::Split => Some(Choice::Above(n)),
        ValueWord::ReverseSplit => None,
    }
}

/// The alternative after the upper half, which begins above `n`: the lower one, and None where the word tries no half or tries
/// the lower one first.
pub fn lower_half(word: ValueWord, n: i64) -> Option<Choice>
    ensures { (d : List Span) → Follows (alternatives (value_word word) d) (Some (above n)) (option_map alternative_of result) }
{
    match word {
        ValueWord::Up => None,
        ValueWord::Down => None,
        ValueWord::Split => None,
        ValueWord::ReverseSplit => Some(Choice::AtMost(n)),
    }
}

/// The least value above `n`.
fn value_above(alloc: Global, d: &Domain, n: i64) -> Result<Option<i64>, AllocError>
    ensures { IfOk result (λ found. IsNextAbove d.now n found) }
{
    let above = cut_below(alloc, d, i128::from(n) + 1)?;
    Ok(min(&above))
}

/// The greatest value below `n`.
fn value_below(alloc: Global, d: &Domain, n: i64) -> Result<Option<i64>, AllocError>
    ensures { IfOk result (λ found. IsNextBelow d.now n found) }
{
    let below = cut_above(alloc, d, i128::from(n) - 1)?;
    Ok(max(&below))
}

/// Half the sum of two numbers, rounded down.
fn halved(lo: i64, hi: i64) -> i64
    requires low { IsWithinBounds lo }
    requires high { IsWithinBounds hi }
    ensures { result ≡ half_of (lo +ℤ hi) }
{
    (lo + hi).div_euclid(2)
}

/// From the least to the greatest value.
fn ends(d: &Domain) -> Option<Span>
    ensures domain { IsDomain d.now }
    ensures ends { ShowsEnds d.now result }
{
    let spans = d.spans();
    let Some(first) = spans.first() else {
        return None;
    };
    let Some(last) = spans.last() else {
        return None;
    };
    Some(Span {
        lo: first.lo,
        hi: last.hi,
    })
}
