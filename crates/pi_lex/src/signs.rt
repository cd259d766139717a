//! Signs and the end point.
ghost use Rattle.std.specs.Prelude.{◌≡◌, ◌≤◌, IsTrue, length, map};
ghost use Rattle.pi_lex.specs.Items.{seen, FitsIn};
ghost use Rattle.pi_syntax.specs.Tokens as spec;

use crate::blanks::is_white;
use crate::item::{Item, char_at};
use crate::names::spells;

/// The longest sign that fits.
#[tactic(auto, unfolding(pi_syntax::specs::Tokens::sign))]
pub(crate) fn sign(text: &[char]) -> Item
    ensures value { seen text.now result ≡ spec.sign text.now }
    ensures within { FitsIn text.now result }
{
    match sign_len(text) {
        0 => Item::Bad,
        len => Item::Sign(len),
    }
}

fn sign_len(text: &[char]) -> usize
    ensures value { result ≡ spec.sign_len text.now }
    ensures within { result ≤ length text.now }
{
    if begins_with(text, "#<=>") {
        4
    } else if is_sign_of_three(text) {
        3
    } else if is_sign_of_two(text) {
        2
    } else if is_sign_of_one(text) {
        1
    } else {
        0
    }
}

fn is_sign_of_three(text: &[char]) -> bool
    ensures { result ≡ spec.begins_with_one_of spec.signs_of_three text.now }
{
    begins_with_one_of(
        text,
        &[
            "=:=", "=\\=", "!==", "?=>", "@=<", "#=>", "#=<", "#<=", "#>=", "#!=", "#/\\", "#\\/",
            "@>=",
        ],
    )
}

fn is_sign_of_two(text: &[char]) -> bool
    ensures { result ≡ spec.begins_with_one_of spec.signs_of_two text.now }
{
    begins_with_one_of(
        text,
        &[
            "#^", "#~", "#=", "#<", "#>", "=>", "->", "==", "!=", "=<", "<=", ">=", ":=", "::",
            "@<", "@>", "**", "++", "//", "/>", "/<", ">>", "<<", "/\\", "\\/", "..",
        ],
    )
}

fn is_sign_of_one(text: &[char]) -> bool
    ensures { result ≡ spec.begins_with_one_of spec.signs_of_one text.now }
{
    begins_with_one_of(
        text,
        &[
            "=", "<", ">", "+", "-", "*", "~", "^", "@", ".", ",", ";", ":", "|", "$", "(", ")",
            "[", "]", "{", "}",
        ],
    )
}

fn begins_with_one_of(text: &[char], signs: &[&str]) -> bool
    ensures { result ≡ spec.begins_with_one_of (map (λ s. s.now) signs.now) text.now }
{
    for sign in signs {
        if begins_with(text, sign) {
            return true;
        }
    }
    false
}

fn begins_with(text: &[char], sign: &str) -> bool
    ensures value { result ≡ spec.begins_with text.now sign.now }
    ensures within { IsTrue result → length sign.now ≤ length text.now }
{
    spells(&text[..text.len().min(sign.len())], sign)
}

/// Whether the text begins with the end point of a part.
#[tactic(auto, unfolding(pi_syntax::specs::Tokens::is_end_point))]
pub(crate) fn is_end_point(text: &[char]) -> bool
    ensures { result ≡ spec.is_end_point text.now }
{
    char_at(text, 0) == '.'
        && (text.len() == 1 || is_white(char_at(text, 1)) || char_at(text, 1) == '%')
}
