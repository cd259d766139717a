//! The values of integer tokens.
ghost use Rattle.std.specs.Prelude.{◌≡◌, pos, ◌≤ℤ◌, ◌-ℤ◌};

/// The value of an integer token, which isn't negative.
#[derive(Clone, Copy)]
pub struct Natural {
    pub value: i128,
    pub ghost not_negative: { pos 0 ≤ℤ value },
}

impl Natural {
    /// The value with a minus before it.
    pub fn negated(self) -> i128
        ensures { result ≡ (pos 0 -ℤ self.value) }
    {
        -self.value
    }
}
