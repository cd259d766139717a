//! How sums stand to 0.
ghost use Rattle.std.specs.Prelude.{◌≡◌};
ghost use Rattle.pi_prop_spec.specs.Relations.{stands};
ghost use Rattle.pi_prop_made.specs.Making.{IsNumber};
ghost use Rattle.pi_prop_made.specs.ToZero.{rel_of, constant_for};

use pi_constraints::Rel;

/// How a sum stands to 0. A User's Guide to Picat, 'Constraints'; the forms are own.
#[derive(Clone, Copy)]
pub enum ToZero {
    Equal,
    Unequal,
    AtMost,
    /// The sum and 1 are at most 0.
    Below,
}

impl ToZero {
    /// How the sum that is posted stands to 0.
    pub(crate) fn rel(self) -> Rel
        ensures { result ≡ rel_of self }
    {
        match self {
            ToZero::Equal => Rel::Equal,
            ToZero::Unequal => Rel::Unequal,
            ToZero::AtMost => Rel::AtMost,
            ToZero::Below => Rel::AtMost,
        }
    }

    /// The constant of the sum that is posted, where it has 128 bits.
    pub(crate) fn constant(self, constant: i128) -> Option<i128>
        ensures { IsNumber result (constant_for self constant) }
    {
        match self {
            ToZero::Below => constant.checked_add(1),
            _ => Some(constant),
        }
    }

    /// Whether a number stands so.
    pub(crate) fn holds(self, number: i128) -> bool
        ensures { result ≡ stands (rel_of self) (constant_for self number) }
    {
        match self {
            ToZero::Equal => number == 0,
            ToZero::Unequal => number != 0,
            ToZero::AtMost => number <= 0,
            ToZero::Below => number < 0,
        }
    }
}
