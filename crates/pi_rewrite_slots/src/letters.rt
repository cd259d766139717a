//! The characters of a text as names of atoms.
ghost use Rattle.std.specs.Prelude.{◌≡◌, IfOk};
ghost use Rattle.std.specs.Char.{encode_utf8};
ghost use Rattle.std.specs.Str.{chars};

use pi_terms::Text;
use std::alloc::{AllocError, Global};

/// The characters of a text, in order.
pub(crate) fn letters(alloc: Global, text: &str) -> Result<Vec<char>, AllocError>
    ensures { IfOk result (λ found. found.items ≡ chars text.now) }
{
    text.chars().collect(alloc)
}

/// The name of the atom that a character is.
pub(crate) fn letter_name(alloc: Global, letter: char) -> Result<Text, AllocError>
    ensures { IfOk result (λ made. made ≡ encode_utf8 letter) }
{
    let mut bytes = [0; 4];
    Text::new(alloc, letter.encode_utf8(&mut bytes))
}
