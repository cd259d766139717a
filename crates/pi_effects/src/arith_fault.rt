//! Why an operation has no value.
use thiserror::Error;

/// Why an operation has no value.
#[derive(Clone, Copy, Debug, Error)]
pub enum ArithFault {
    /// The value needs more than 128 bits with a sign.
    #[error("integer_overflow")]
    Overflow,
    /// The divisor is 0.
    #[error("zero_divisor")]
    ZeroDivisor,
    /// The exponent is below 0.
    #[error("negative_exponent")]
    NegativeExponent,
    /// The distance of the shift isn't one of 0 to 127.
    #[error("bad_shift")]
    BadShift,
}
