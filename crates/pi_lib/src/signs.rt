//! Signs of formats.
ghost use Rattle.std.specs.Prelude.{◌≡◌};
ghost use Rattle.pi_effects.specs.Format.{sign};
ghost use Rattle.pi_lib.specs.Signs.{piece_of, letter_piece};

/// How an argument of a format is written: in plain form, as an integer, or as a text.
#[derive(Clone, Copy)]
pub enum Form {
    Term,
    Integer,
    Text,
}

/// What a letter behind a `%` stands for: an argument, a line feed, a `%`, or nothing.
#[derive(Clone, Copy)]
pub enum Sign {
    Argument(Form),
    LineFeed,
    Percent,
    Unknown,
}

/// The sign with the letter behind a `%`, if there is one.
pub fn sign_behind(letter: Option<char>) -> Sign
    ensures { piece_of result ≡ letter_piece letter }
{
    match letter {
        Some(letter) => sign_of(letter),
        None => Sign::Unknown,
    }
}

/// The sign with this letter. A User's Guide to Picat, 'Input and Output'; which signs there are is own.
fn sign_of(letter: char) -> Sign
    ensures { piece_of result ≡ sign letter }
{
    match letter {
        'w' => Sign::Argument(Form::Term),
        'd' => Sign::Argument(Form::Integer),
        's' => Sign::Argument(Form::Text),
        'n' => Sign::LineFeed,
        '%' => Sign::Percent,
        _ => Sign::Unknown,
    }
}
