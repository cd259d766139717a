//! Powers.
ghost use Rattle.std.specs.Prelude.{◌≡◌, SomeIff, FitsSigned};
ghost use Rattle.std.specs.Int.{w128};
ghost use Rattle.pi_effects.specs.Power.{power};
ghost use Rattle.pi_effects.specs.Range.{bounded, raised_to};

use crate::ArithFault;

pub fn raise(a: i128, b: i128) -> Result<i128, ArithFault>
    ensures { result ≡ raised_to b (λ n. bounded (power a n)) }
{
    if b < 0 {
        return Err(ArithFault::NegativeExponent);
    }
    power_by_squares(a, b as u128).ok_or(ArithFault::Overflow)
}

// Squares the power at half the exponent, so it calls itself at most 128 times.
fn power_by_squares(base: i128, exponent: u128) -> Option<i128>
    ensures { SomeIff result (FitsSigned w128 (power base exponent)) (power base exponent) }
{
    if exponent == 0 {
        return Some(1);
    }
    let half = power_by_squares(base, exponent / 2)?;
    let square = half.checked_mul(half)?;
    if exponent % 2 == 0 {
        Some(square)
    } else {
        square.checked_mul(base)
    }
}
