//! Terms and answers as texts. A User's Guide to Picat, 'Data Types'; the forms are own.
#![tactic(auto)]

ghost use Rattle.std.specs.Prelude.{◌≡◌, IfOk};
ghost use Rattle.pi_syntax.specs.PrintTerm.{text_of};

mod answers;
mod atoms;
mod characters;
mod nodes;
mod numbers;
mod printer;

pub use answers::answer_text;
use numbers::meet_term;
use pi_terms::{Numbers, Series, Term, Text};
use printer::Printer;
use std::alloc::{AllocError, Global};

/// Lines, each with its line feed.
pub type Lines = Series<Text>;

/// The text of a term. Its variables are `_1`, `_2` and so on by first occurrence. In the quoted form atoms stand in
/// quotes where they have to; in the plain form they never do, and a list of one-character atoms is its characters.
pub fn term_text(alloc: Global, t: &Term, quoted: bool) -> Result<Text, AllocError>
    ensures ok { IfOk result (λ text. text ≡ text_of quoted t.now) }
{
    let mut numbers = Numbers::new(alloc);
    meet_term(&mut numbers, t)?;
    let printer = Printer {
        alloc,
        is_quoted: quoted,
        numbers,
    };
    let mut out = String::new(alloc);
    printer.term(t, &mut out)?;
    let text = Text::from_string(alloc, out)?;
    Ok(text)
}
