//! Integers of 128 bits in three parts.
ghost use Rattle.std.specs.Prelude.{◌≡◌, ◌<◌, ◌^◌, ℤ, pos, negsuc, ◌≤ℤ◌};
ghost use Rattle.pi_store_blocks.specs.Form.{wide_of, wide_top, wide_mid, wide_low, wide_sum};

/// A part is below this.
const PART: u128 = 576_460_752_303_423_488;

/// The first part of an integer below 0 has this more.
const SIGN: u64 = 512;

/// The first part of an integer.
pub fn top(n: i128) -> u64
    ensures is { result ≡ wide_top n }
    ensures fits { result < 2 ^ 59 }
{
    if n >= 0 {
        (n as u128 / PART / PART) as u64
    } else {
        (below(n) / PART / PART) as u64 + SIGN
    }
}

/// The second part of an integer.
pub fn mid(n: i128) -> u64
    ensures is { result ≡ wide_mid n }
    ensures fits { result < 2 ^ 59 }
{
    if n >= 0 {
        (n as u128 / PART % PART) as u64
    } else {
        (below(n) / PART % PART) as u64
    }
}

/// The third part of an integer.
pub fn low(n: i128) -> u64
    ensures is { result ≡ wide_low n }
    ensures fits { result < 2 ^ 59 }
{
    if n >= 0 {
        (n as u128 % PART) as u64
    } else {
        (below(n) % PART) as u64
    }
}

/// How far an integer is below -1.
fn below(n: i128) -> u128
    requires { n ≤ℤ negsuc 0 }
    ensures is { n ≡ negsuc result }
    ensures fits { result < 2 ^ 127 }
{
    (-(n + 1)) as u128
}

/// The parts as one number.
fn sum(top: u64, mid: u64, low: u64) -> u128
    requires mid { mid < 2 ^ 59 }
    requires low { low < 2 ^ 59 }
    ensures is { result ≡ wide_sum top mid low }
    ensures fits { result < 2 ^ 127 }
{
    (u128::from(top % SIGN) * PART + u128::from(mid)) * PART + u128::from(low)
}

/// The integer of three parts.
pub fn joined(top: u64, mid: u64, low: u64) -> i128
    requires mid { mid < 2 ^ 59 }
    requires low { low < 2 ^ 59 }
    ensures { result ≡ wide_of top mid low }
{
    let sum = sum(top, mid, low);
    if top < SIGN {
        sum as i128
    } else {
        -(sum as i128) - 1
    }
}
