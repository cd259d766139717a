//! The operations on integers.
/// An operation on integers.
#[derive(Clone, Copy)]
pub enum Op {
    /// `a + b`
    Add,
    /// `a - b`
    Sub,
    /// `a * b`
    Mul,
    /// `a // b`: the quotient rounded towards zero
    Quot,
    /// `a /< b`, `a div b`: the quotient rounded down
    Floor,
    /// `a /> b`: the quotient rounded up
    Ceil,
    /// `a mod b`: what the quotient rounded down leaves
    Mod,
    /// `a rem b`: what the quotient rounded towards zero leaves
    Rem,
    /// `a ** b`
    Pow,
    /// `a << b`
    ShiftLeft,
    /// `a >> b`: the quotient by a power of two, rounded down
    ShiftRight,
    /// `a /\ b`, on bits in two's complement
    And,
    /// `a \/ b`, on bits
    Or,
    /// `a ^ b`, on bits
    Xor,
    /// `-a`
    Neg,
    /// `~a`, on bits
    Not,
    /// `abs(a)`
    Abs,
    /// `sign(a)`: -1, 0 or 1
    Sign,
}
