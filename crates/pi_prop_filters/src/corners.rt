//! The ends of domains, and those of their products.
ghost use Rattle.std.specs.Prelude.{◌≡◌, ◌*ℤ◌, ◌≤ℤ◌};
ghost use Rattle.std.specs.Int.{int_min, int_max};
ghost use Rattle.pi_constraints.specs.Domain.{IsWithinBounds};
ghost use Rattle.pi_prop_spec.specs.Ends.{least_of, greatest_of};
ghost use Rattle.pi_prop_spec.specs.Places.{domain_at};

use pi_prop_places::Places;

/// Two numbers, of which all between them are meant.
#[derive(Clone, Copy)]
pub(crate) struct Ends {
    pub(crate) lo: i128,
    pub(crate) hi: i128,
}

impl Ends {
    /// The least and the greatest value at a place.
    pub(crate) fn at<P: Places>(places: &P, k: usize) -> Ends
        ensures lo { result.lo ≡ least_of (domain_at (P.domains places.now) k) }
        ensures hi { result.hi ≡ greatest_of (domain_at (P.domains places.now) k) }
        ensures low { IsWithinBounds result.lo }
        ensures high { IsWithinBounds result.hi }
        ensures ordered { result.lo ≤ℤ result.hi }
    {
        Ends {
            lo: wide(places.least(k)),
            hi: wide(places.greatest(k)),
        }
    }

    /// The lesser and the greater of two numbers.
    fn of(a: i128, b: i128) -> Ends
        ensures lo { result.lo ≡ int_min a b }
        ensures hi { result.hi ≡ int_max a b }
    {
        Ends {
            lo: a.min(b),
            hi: a.max(b),
        }
    }

    /// The least and the greatest product of a number and a number between the ends.
    fn times(self, factor: i128) -> Ends
        requires factor { IsWithinBounds factor }
        requires low { IsWithinBounds self.lo }
        requires high { IsWithinBounds self.hi }
        ensures lo { result.lo ≡ int_min (factor *ℤ self.lo) (factor *ℤ self.hi) }
        ensures hi { result.hi ≡ int_max (factor *ℤ self.lo) (factor *ℤ self.hi) }
    {
        Ends::of(factor * self.lo, factor * self.hi)
    }

    /// The least and the greatest of the four products of ends.
    pub(crate) fn corners(self, other: Ends) -> Ends
        requires low { IsWithinBounds self.lo }
        requires high { IsWithinBounds self.hi }
        requires other_low { IsWithinBounds other.lo }
        requires other_high { IsWithinBounds other.hi }
        ensures lo { result.lo ≡ int_min (int_min (self.lo *ℤ other.lo) (self.lo *ℤ other.hi))
            (int_min (self.hi *ℤ other.lo) (self.hi *ℤ other.hi)) }
        ensures hi { result.hi ≡ int_max (int_max (self.lo *ℤ other.lo) (self.lo *ℤ other.hi))
            (int_max (self.hi *ℤ other.lo) (self.hi *ℤ other.hi)) }
    {
        let first = other.times(self.lo);
        let last = other.times(self.hi);
        Ends {
            lo: first.lo.min(last.lo),
            hi: first.hi.max(last.hi),
        }
    }
}

/// The same integer in 128 bits.
fn wide(n: i64) -> i128
    ensures { result ≡ n }
{
    i128::from(n)
}
