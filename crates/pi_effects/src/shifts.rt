//! Shifts, as products and quotients by powers of two.
ghost use Rattle.std.specs.Prelude.{◌≡◌, ◌^◌, ◌<◌, pos, ◌*ℤ◌, Ok, SomeIff, FitsSigned};
ghost use Rattle.std.specs.Int.{w128};
ghost use Rattle.pi_effects.specs.Quotients.{floor_quotient};
ghost use Rattle.pi_effects.specs.Range.{bounded, shifted_by};

use crate::ArithFault;

pub fn left(a: i128, b: i128) -> Result<i128, ArithFault>
    ensures { result ≡ shifted_by b (λ n. bounded (a *ℤ pos (2 ^ n))) }
{
    match b {
        0..=127 => scaled(a, b as u32).ok_or(ArithFault::Overflow),
        _ => Err(ArithFault::BadShift),
    }
}

pub fn right(a: i128, b: i128) -> Result<i128, ArithFault>
    ensures { result ≡ shifted_by b (λ n. Ok (floor_quotient a (pos (2 ^ n)))) }
{
    match b {
        0..=127 => Ok(a >> b as u32),
        _ => Err(ArithFault::BadShift),
    }
}

// `<<` drops the bits above the 128th, so the way back tells whether one was lost.
fn scaled(a: i128, distance: u32) -> Option<i128>
    requires { distance < 128 }
    ensures { SomeIff result (FitsSigned w128 (a *ℤ pos (2 ^ distance))) (a *ℤ pos (2 ^ distance)) }
{
    let shifted = a << distance;
    if shifted >> distance == a {
        Some(shifted)
    } else {
        None
    }
}
