//! Lemmas in the making.
ghost use Rattle.std.specs.Prelude.{◌≡◌, true, false};

use crate::cuts::negated;
use pi_constraints::{Domain, cut_above, max, min};
use pi_sat_spec::Literal;
use std::alloc::{AllocError, Global};

/// Puts a literal where it belongs, in the place of one of its variable and direction.
pub(crate) fn put(lemma: &mut Vec<Literal>, literal: Literal) -> Result<(), AllocError> {
    let at = place_for(lemma.as_slice(), literal);
    if at < lemma.len() && has_place_of(lemma[at], literal) {
        lemma[at] = literal;
        return Ok(());
    }
    if at <= lemma.len() {
        lemma.insert(at, literal)?;
    }
    Ok(())
}

/// Puts a literal where it belongs; of two of one variable and direction the one stays that the other implies.
pub(crate) fn put_weaker(lemma: &mut Vec<Literal>, literal: Literal) -> Result<(), AllocError> {
    let at = place_for(lemma.as_slice(), literal);
    let bound = match lemma.as_slice().get(at) {
        Some(other) if has_place_of(*other, literal) => weaker(*other, literal),
        _ => literal.bound,
    };
    put(
        lemma,
        Literal {
            var: literal.var,
            bound,
            above: literal.above,
        },
    )
}

/// The bound of the weaker of two literals of one variable and direction.
fn weaker(first: Literal, second: Literal) -> i64 {
    if first.above {
        first.bound.min(second.bound)
    } else {
        first.bound.max(second.bound)
    }
}

/// How many literals stand before a literal's place.
fn place_for(lemma: &[Literal], literal: Literal) -> usize {
    let mut at = 0;
    for i in 0..lemma.len() {
        if stands_before(lemma[i], literal) {
            at = i + 1;
        }
    }
    at
}

/// Whether one literal stands before another.
fn stands_before(first: Literal, second: Literal) -> bool {
    first.var < second.var || (first.var == second.var && !first.above && second.above)
}

/// Whether two literals have one variable and one direction.
fn has_place_of(first: Literal, second: Literal) -> bool {
    first.var == second.var && first.above == second.above
}

/// Puts what says that a variable leaves its present values: the negation of each end that isn't its first.
pub(crate) fn put_ends(
    alloc: Global,
    lemma: &mut Vec<Literal>,
    var: u64,
    given: &Domain,
    present: &Domain,
) -> Result<(), AllocError> {
    if let Some(below) = below_least(alloc, given, present)? {
        put(lemma, negated(above(var, below)))?;
    }
    if let Some(greatest) = new_greatest(given, present) {
        put(lemma, negated(at_most(var, greatest)))?;
    }
    Ok(())
}

/// The greatest given value below all that are left; None where the least one is left.
pub(crate) fn below_least(
    alloc: Global,
    given: &Domain,
    left: &Domain,
) -> Result<Option<i64>, AllocError> {
    match min(left) {
        None => Ok(None),
        Some(least) => {
            let lower = cut_above(alloc, given, i128::from(least) - 1)?;
            Ok(max(&lower))
        }
    }
}

/// The greatest value that is left, where it isn't the greatest given one.
pub(crate) fn new_greatest(given: &Domain, left: &Domain) -> Option<i64> {
    let greatest = max(left)?;
    let first = max(given)?;
    if greatest < first {
        return Some(greatest);
    }
    None
}

/// The literal that a variable is above a bound.
pub(crate) fn above(var: u64, bound: i64) -> Literal
    ensures { result ≡ record { var = var; bound = bound; above = true } }
{
    Literal {
        var,
        bound,
        above: true,
    }
}

/// The literal that a variable is at most a bound.
pub(crate) fn at_most(var: u64, bound: i64) -> Literal
    ensures { result ≡ record { var = var; bound = bound; above = false } }
{
    Literal {
        var,
        bound,
        above: false,
    }
}
