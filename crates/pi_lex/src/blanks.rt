//! White space and comments.
ghost use Rattle.std.specs.Prelude.{◌≡◌, ◌≤◌, ◌<◌, length, drop, slice_index, IfSome, IsTrue};
ghost use Rattle.pi_lex.specs.Items.{seen, FitsIn, IsFront};
ghost use Rattle.pi_syntax.specs.Tokens as spec;

use crate::item::{Item, char_at};

/// Whether the character is white space.
pub(crate) fn is_white(c: char) -> bool
    ensures { result ≡ spec.is_white c }
{
    c == ' ' || c == '\t' || c == '\n' || c == '\r'
}

/// How many characters at the front are white space.
pub(crate) fn white_len(text: &[char]) -> usize
    ensures value { result ≡ spec.white_len text.now }
    ensures within { result ≤ length text.now }
    ensures some { IsTrue (spec.is_white (slice_index text.now 0)) → 0 < result }
{
    text.iter().take_while(|c| is_white(**c)).count()
}

/// How many characters at the front stand before a line feed.
pub(crate) fn line_comment_len(text: &[char]) -> usize
    ensures value { result ≡ spec.line_comment_len text.now }
    ensures within { result ≤ length text.now }
    ensures some { slice_index text.now 0 ≡ spec.percent → 0 < result }
{
    text.iter().take_while(|c| **c != '\n').count()
}

/// Whether `/*` comes next.
pub(crate) fn starts_comment(text: &[char]) -> bool
    ensures value { result ≡ spec.starts_comment text.now }
    ensures within { IsTrue result → 2 ≤ length text.now }
{
    char_at(text, 0) == '/' && char_at(text, 1) == '*'
}

/// A comment from `/*` to the next `*/`.
#[tactic(auto, unfolding(pi_syntax::specs::Tokens::comment))]
pub(crate) fn comment(text: &[char]) -> Item
    requires { 2 ≤ length text.now }
    ensures value { seen text.now result ≡ spec.comment text.now }
    ensures within { FitsIn text.now result }
{
    match comment_end(text) {
        Some(end) => Item::Blank(end),
        None => Item::Bad,
    }
}

fn comment_end(text: &[char]) -> Option<usize>
    requires { 2 ≤ length text.now }
    ensures place { result ≡ spec.comment_end 2 (drop 2 text.now) }
    ensures within { IfSome result (λ end. IsFront end text.now) }
{
    for at in 2..text.len() {
        if text[at] == '*' && char_at(text, at + 1) == '/' {
            return Some(at + 2);
        }
    }
    None
}
