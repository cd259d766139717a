//! Integers of 128 bits that need no more room than their bits.
ghost use Rattle.std.specs.Prelude.{◌≡◌};

use std::marker::Model;

/// The number that a bit of the upper half stands for.
const UPPER: u128 = 18_446_744_073_709_551_616;

/// An integer from -2^127 to 2^127 - 1. A contract sees the number.
///
/// It may stand at any address that is a multiple of eight, an `i128` only at one of 16: so what holds it isn't rounded up.
#[derive(Drop)]
pub struct Integer {
    upper: u64,
    lower: u64,
}

impl Model for Integer {
    ghost use Rattle.std.specs.Prelude.{ℤ, ◌+◌, ◌*◌, ◌^◌};
    ghost use Rattle.std.specs.Int.{w128, cast_signed};

    ghost Value = { ℤ };

    ghost view = { λ n. cast_signed w128 (n.upper * 2 ^ 64 + n.lower) };
}

impl Integer {
    /// The integer with this value.
    pub fn new(value: i128) -> Integer
        ensures { result ≡ value }
    {
        let bits = value.cast_unsigned();
        Integer {
            upper: (bits / UPPER) as u64,
            lower: (bits % UPPER) as u64,
        }
    }

    /// Its value.
    pub fn value(&self) -> i128
        ensures { result ≡ self.now }
    {
        let bits = u128::from(self.upper) * UPPER + u128::from(self.lower);
        bits.cast_signed()
    }
}
