//! Coefficients whose sign is turned without a change of their numbers.
ghost use Rattle.std.specs.Prelude.{◌≡◌, ◌+ℤ◌, ◌*ℤ◌, neg_ℤ, pos, true, false, MatchOption};
ghost use Rattle.std.specs.Ordering.{int_eq};
ghost use Rattle.pi_effects.specs.Range.{has_128_bits};
ghost use Rattle.pi_prop_made.specs.Signed.{signed};

/// An integer from -2^127 to 2^127: the value, or its opposite where it is negated.
#[derive(Clone, Copy)]
pub(crate) struct Coefficient {
    pub(crate) value: i128,
    pub(crate) negated: bool,
    ghost fits: { has_128_bits value ≡ true },
}

impl Coefficient {
    /// The value, or its opposite.
    pub(crate) fn new(value: i128, negated: bool) -> Coefficient
        ensures value { result.value ≡ value }
        ensures sign { result.negated ≡ negated }
    {
        Coefficient { value, negated }
    }

    /// With the other sign where `turned` says so.
    pub(crate) fn turned(self, turned: bool) -> Coefficient
        ensures { signed result.negated result.value ≡ signed turned (signed self.negated self.value) }
    {
        Coefficient {
            value: self.value,
            negated: self.negated != turned,
        }
    }

    /// The number, where it has 128 bits.
    pub(crate) fn number(self) -> Option<i128>
        ensures { MatchOption result (has_128_bits (signed self.negated self.value) ≡ false) (λ n. n ≡ signed self.negated self.value) }
    {
        if self.negated {
            self.value.checked_neg()
        } else {
            Some(self.value)
        }
    }

    /// Whether the number is 1.
    pub(crate) fn is_one(self) -> bool
        ensures { result ≡ int_eq (signed self.negated self.value) (pos 1) }
    {
        if self.negated {
            self.value == -1
        } else {
            self.value == 1
        }
    }

    /// A number times this one, which has 128 bits, where the product does.
    pub(crate) fn times(self, factor: i128) -> Option<i128>
        requires { has_128_bits (signed self.negated self.value) ≡ true }
        ensures { MatchOption result (has_128_bits (factor *ℤ signed self.negated self.value) ≡ false)
            (λ n. n ≡ factor *ℤ signed self.negated self.value) }
    {
        match self.number() {
            Some(number) => factor.checked_mul(number),
            None => None,
        }
    }

    /// The sum of two, where it has 128 bits.
    pub(crate) fn plus(self, other: Coefficient) -> Option<i128>
        ensures { MatchOption result (has_128_bits (signed self.negated self.value +ℤ signed other.negated other.value) ≡ false)
            (λ n. n ≡ signed self.negated self.value +ℤ signed other.negated other.value) }
    {
        if self.negated {
            if other.negated {
                opposite_sum(self.value, other.value)
            } else {
                other.value.checked_sub(self.value)
            }
        } else if other.negated {
            self.value.checked_sub(other.value)
        } else {
            self.value.checked_add(other.value)
        }
    }
}

/// The opposite of the sum of two numbers, where it has 128 bits.
fn opposite_sum(a: i128, b: i128) -> Option<i128>
    ensures { MatchOption result (has_128_bits (neg_ℤ a +ℤ neg_ℤ b) ≡ false) (λ n. n ≡ neg_ℤ a +ℤ neg_ℤ b) }
{
    if let Some(opposite) = a.checked_neg() {
        return opposite.checked_sub(b);
    }
    match b.checked_neg() {
        Some(opposite) => opposite.checked_sub(a),
        None => None,
    }
}
