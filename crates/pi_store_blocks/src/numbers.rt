//! Numbers as a block holds them, each below 2^59.
ghost use Rattle.std.specs.Prelude.{◌≡◌, ◌<◌, ◌^◌};
ghost use Rattle.pi_store_blocks.specs.Numbers.{moved_up, moved_down, first_half, second_half, whole};

/// How far integers are moved up, so that none is below 0.
const BIAS: u128 = 144_115_188_075_855_872;

/// A moved integer is below this.
const MOVED: u128 = 288_230_376_151_711_744;

/// Half of a number of 64 bits is below this.
const HALF: u64 = 4_294_967_296;

/// An integer that is moved up. Only those from -2^57 to 2^57 - 1 are told apart.
pub fn moved_up(n: i128) -> u64
    ensures is { result ≡ moved_up n }
    ensures small { result < 2 ^ 58 }
{
    if n >= 0 {
        ((BIAS + n as u128) % MOVED) as u64
    } else {
        BIAS.saturating_sub((-(n + 1)) as u128 + 1) as u64
    }
}

/// The integer that was moved up.
pub fn moved_down(number: u64) -> i64
    requires { number < 2 ^ 59 }
    ensures { result ≡ moved_down number }
{
    number as i64 - 144_115_188_075_855_872
}

/// The upper half of a number.
pub fn first_half(n: u64) -> u64
    ensures is { result ≡ first_half n }
    ensures small { result < 2 ^ 32 }
{
    n / HALF
}

/// The lower half of a number.
pub fn second_half(n: u64) -> u64
    ensures is { result ≡ second_half n }
    ensures small { result < 2 ^ 32 }
{
    n % HALF
}

/// The number of two halves.
pub fn whole(first: u64, second: u64) -> u64
    ensures { result ≡ whole first second }
{
    first % HALF * HALF + second % HALF
}
