//! Tokens in four bytes.
ghost use Rattle.std.specs.Prelude.{◌≡◌, ◌<◌, ◌^◌};
ghost use Rattle.pi_lex.specs.Store.{number_of, counted_kind};

/// No number of a form is this or more.
pub(crate) const NUMBERS_END: usize = 16_777_216;

/// What differs among the tokens that the buffer spells.
#[derive(Clone, Copy)]
pub(crate) enum Kind {
    Variable,
    Atom,
    Word,
    Text,
    Sign,
}

/// What a form is, and what its number is. Of the first five it is the place of the count in the buffer, and the
/// spelling, of so many bytes, stands in front of that. They are spelled out, so that a kind takes one byte.
#[derive(Clone, Copy)]
pub(crate) enum FormKind {
    Variable,
    Atom,
    Word,
    Text,
    Sign,
    /// The number is the place among the long ones.
    Long,
    /// The number is the integer.
    Small,
    /// The number is the place among the numbers.
    Large,
    EndPoint,
}

/// A token in four bytes: what it is, and a number below 2^24.
#[derive(Clone, Copy)]
pub(crate) struct Form {
    pub(crate) kind: FormKind,
    high: u8,
    low: u16,
}

impl Form {
    /// The form of this kind with this number.
    pub(crate) fn new(kind: FormKind, number: usize) -> Self
        requires { number < 2 ^ 24 }
        ensures kind { result.kind ≡ kind }
        ensures number { number_of result ≡ number }
    {
        Form {
            kind,
            high: (number / 65_536) as u8,
            low: (number % 65_536) as u16,
        }
    }

    /// Its number.
    pub(crate) fn number(self) -> u32
        ensures { result ≡ number_of self }
    {
        u32::from(self.high) * 65_536 + u32::from(self.low)
    }
}

/// What the form of a counted spelling is.
pub(crate) fn counted_kind(kind: Kind) -> FormKind
    ensures { result ≡ counted_kind kind }
{
    match kind {
        Kind::Variable => FormKind::Variable,
        Kind::Atom => FormKind::Atom,
        Kind::Word => FormKind::Word,
        Kind::Text => FormKind::Text,
        Kind::Sign => FormKind::Sign,
    }
}
