//! Quotients, rounded three ways, and what they leave.
ghost use Rattle.std.specs.Prelude.{◌≡◌, ◌-ℤ◌, ◌*ℤ◌, Ok};
ghost use Rattle.pi_effects.specs.Quotients.{quotient, floor_quotient, ceiling_quotient, have_opposite_signs, have_one_sign};
ghost use Rattle.pi_effects.specs.Range.{bounded, divided_by};

use crate::ArithFault;

pub fn towards_zero(a: i128, b: i128) -> Result<i128, ArithFault>
    ensures { result ≡ divided_by b (bounded (quotient a b)) }
{
    if b == 0 {
        return Err(ArithFault::ZeroDivisor);
    }
    a.checked_div(b).ok_or(ArithFault::Overflow)
}

pub fn down(a: i128, b: i128) -> Result<i128, ArithFault>
    ensures { result ≡ divided_by b (bounded (floor_quotient a b)) }
{
    let quotient = towards_zero(a, b)?;
    if have_opposite_signs(a % b, b) {
        Ok(quotient - 1)
    } else {
        Ok(quotient)
    }
}

pub fn up(a: i128, b: i128) -> Result<i128, ArithFault>
    ensures { result ≡ divided_by b (bounded (ceiling_quotient a b)) }
{
    let quotient = towards_zero(a, b)?;
    if have_one_sign(a % b, b) {
        Ok(quotient + 1)
    } else {
        Ok(quotient)
    }
}

pub fn modulo(a: i128, b: i128) -> Result<i128, ArithFault>
    ensures { result ≡ divided_by b (Ok (a -ℤ floor_quotient a b *ℤ b)) }
{
    let rest = remainder(a, b)?;
    if have_opposite_signs(rest, b) {
        Ok(rest + b)
    } else {
        Ok(rest)
    }
}

// The quotient by -1 may overflow, and leaves 0 even then.
pub fn remainder(a: i128, b: i128) -> Result<i128, ArithFault>
    ensures { result ≡ divided_by b (Ok (a -ℤ quotient a b *ℤ b)) }
{
    if b == 0 {
        return Err(ArithFault::ZeroDivisor);
    }
    Ok(a.wrapping_rem(b))
}

fn have_opposite_signs(a: i128, b: i128) -> bool
    ensures { result ≡ have_opposite_signs a b }
{
    (0 < a && b < 0) || (a < 0 && 0 < b)
}

fn have_one_sign(a: i128, b: i128) -> bool
    ensures { result ≡ have_one_sign a b }
{
    (0 < a && 0 < b) || (a < 0 && b < 0)
}
