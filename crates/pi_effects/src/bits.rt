//! Operations on the bits of two's complement.
ghost use Rattle.std.specs.Prelude.{◌≡◌};
ghost use Rattle.pi_effects.specs.Bits.{bits_and, bits_or, bits_xor, complement};

pub fn and(a: i128, b: i128) -> i128
    ensures { result ≡ bits_and a b }
{
    a & b
}

pub fn or(a: i128, b: i128) -> i128
    ensures { result ≡ bits_or a b }
{
    a | b
}

pub fn xor(a: i128, b: i128) -> i128
    ensures { result ≡ bits_xor a b }
{
    a ^ b
}

pub fn not(a: i128) -> i128
    ensures { result ≡ complement a }
{
    !a
}
