//! Domains without some of their values.
ghost use Rattle.std.specs.Prelude.{◌≡◌, ◌&&◌, not, ℤ, IfOk, int_le};
ghost use Rattle.std.specs.Ordering.{int_eq};
ghost use Rattle.pi_constraints.specs.Domain.{has_value};

use crate::domain::{Domain, MAX_VALUE};
use crate::make::{all_but, clipped};
use crate::meets::kept_values;
use std::alloc::{AllocError, Global};

/// The values that are at least `n`.
pub fn cut_below(alloc: Global, d: &Domain, n: i128) -> Result<Domain, AllocError>
    ensures values { IfOk result (λ made. (m : ℤ) → has_value made m ≡ (has_value d.now m && int_le n m)) }
{
    let kept = clipped(alloc, n, i128::from(MAX_VALUE))?;
    kept_values(alloc, d, &kept)
}

/// The values that are at most `n`.
pub fn cut_above(alloc: Global, d: &Domain, n: i128) -> Result<Domain, AllocError>
    ensures values { IfOk result (λ made. (m : ℤ) → has_value made m ≡ (has_value d.now m && int_le m n)) }
{
    let kept = clipped(alloc, i128::from(-MAX_VALUE), n)?;
    kept_values(alloc, d, &kept)
}

/// The values other than `n`.
pub fn remove(alloc: Global, d: &Domain, n: i128) -> Result<Domain, AllocError>
    ensures values { IfOk result (λ made. (m : ℤ) → has_value made m ≡ (has_value d.now m && not (int_eq m n))) }
{
    let kept = all_but(alloc, n)?;
    kept_values(alloc, d, &kept)
}
