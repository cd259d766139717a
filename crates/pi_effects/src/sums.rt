//! Sums, differences, products and the sign.
ghost use Rattle.std.specs.Prelude.{◌≡◌, pos, ◌+ℤ◌, ◌-ℤ◌, ◌*ℤ◌, neg_ℤ, unsigned_abs};
ghost use Rattle.pi_effects.specs.Range.{bounded};

use crate::ArithFault;

pub fn add(a: i128, b: i128) -> Result<i128, ArithFault>
    ensures { result ≡ bounded (a +ℤ b) }
{
    a.checked_add(b).ok_or(ArithFault::Overflow)
}

pub fn subtract(a: i128, b: i128) -> Result<i128, ArithFault>
    ensures { result ≡ bounded (a -ℤ b) }
{
    a.checked_sub(b).ok_or(ArithFault::Overflow)
}

pub fn multiply(a: i128, b: i128) -> Result<i128, ArithFault>
    ensures { result ≡ bounded (a *ℤ b) }
{
    a.checked_mul(b).ok_or(ArithFault::Overflow)
}

pub fn negate(a: i128) -> Result<i128, ArithFault>
    ensures { result ≡ bounded (neg_ℤ a) }
{
    a.checked_neg().ok_or(ArithFault::Overflow)
}

pub fn magnitude(a: i128) -> Result<i128, ArithFault>
    ensures { result ≡ bounded (pos (unsigned_abs a)) }
{
    a.checked_abs().ok_or(ArithFault::Overflow)
}
