//! The limits of finished constraints.
ghost use Rattle.pi_prop_made.specs.Making.{ShowsWithin};

use crate::sum::JoinedSum;

/// The most terms or items of a constraint. The number is own.
pub(crate) const MAX_TERMS: usize = 1048576;

/// The greatest magnitude of a constant in a finished constraint. The number is own.
const MAX_CONSTANT: u128 = 1267650600228229401496703205376;

/// The limit that a finished constraint doesn't keep.
#[derive(Clone, Copy)]
pub enum Limit {
    /// It has too many terms or items.
    Terms,
    /// A coefficient, the constant or an integer item is too wide.
    Width,
}

/// The constant of a constraint that has the terms of a sum and this constant, where it has 128 bits; or the limit that the
/// constraint doesn't keep: first the number of its terms, then its coefficients and its constant.
pub(crate) fn within(sum: &JoinedSum, constant: Option<i128>) -> Result<i128, Limit>
    ensures { ShowsWithin result sum.now.terms constant }
{
    if MAX_TERMS < sum.len() {
        return Err(Limit::Terms);
    }
    if !sum.has_narrow_terms() {
        return Err(Limit::Width);
    }
    let Some(constant) = constant else {
        return Err(Limit::Width);
    };
    if MAX_CONSTANT < constant.unsigned_abs() {
        return Err(Limit::Width);
    }
    Ok(constant)
}
