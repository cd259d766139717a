//! Integers.
ghost use Rattle.std.specs.Prelude.{◌≡◌, ◌+◌, ◌*◌, ◌≤◌, ◌<◌, ◌^◌, ◌⊎◌, nat_le, if◌then◌else◌, pos, IsTrue, length, drop, slice_index, Some, None};
ghost use Rattle.std.specs.Char.{digit_value, is_ascii_digit};
ghost use Rattle.pi_lex.specs.Items.{seen, FitsIn};
ghost use Rattle.pi_syntax.specs.Tokens as spec;

use crate::item::{Item, char_at};
use crate::names::{is_atom_start, is_variable_start};

/// An integer, at its first digit.
#[tactic(auto, unfolding(pi_syntax::specs::Tokens::integer))]
pub(crate) fn integer(text: &[char]) -> Item
    requires { IsTrue (is_ascii_digit (slice_index text.now 0)) }
    ensures value { seen text.now result ≡ spec.integer text.now }
    ensures within { FitsIn text.now result }
{
    let radix = radix_of(text);
    let start = if radix == 10 { 0 } else { 2 };
    let end = digits_end(text, radix, start);
    let Some(number) = number_of(&text[start..end], radix) else {
        return Item::Wide;
    };
    if is_letter(char_at(text, end)) {
        Item::Bad
    } else {
        Item::Integer(number, end)
    }
}

fn radix_of(text: &[char]) -> u32
    ensures value { result ≡ spec.radix_of text.now }
    ensures prefix { (result ≡ 10) ⊎ (2 < length text.now) }
    ensures low { 2 ≤ result }
    ensures high { result ≤ 16 }
{
    if char_at(text, 0) != '0' {
        return 10;
    }
    let radix = match char_at(text, 1) {
        'x' => 16,
        'o' => 8,
        'b' => 2,
        _ => 10,
    };
    if char_at(text, 2).is_digit(radix) {
        radix
    } else {
        10
    }
}

fn digits_end(text: &[char], radix: u32, start: usize) -> usize
    requires low { 2 ≤ radix }
    requires high { radix ≤ 16 }
    requires within { start ≤ length text.now }
    ensures place { result ≡ spec.digits_end radix start (drop start text.now) }
    ensures after { start ≤ result }
    ensures within { result ≤ length text.now }
{
    for at in start..text.len() {
        if !goes_on(text, radix, at) {
            return at;
        }
    }
    text.len()
}

/// Whether the digits go on at a place: with a digit, or with `_` before one.
fn goes_on(text: &[char], radix: u32, at: usize) -> bool
    requires low { 2 ≤ radix }
    requires high { radix ≤ 16 }
    requires within { at < length text.now }
    ensures { result ≡ spec.goes_on radix (drop at text.now) }
{
    text[at].is_digit(radix) || (text[at] == '_' && char_at(text, at + 1).is_digit(radix))
}

/// The number that digits with `_` between them write, if it isn't past the largest.
fn number_of(digits: &[char], radix: u32) -> Option<i128>
    requires low { 2 ≤ radix }
    requires high { radix ≤ 16 }
    ensures { result ≡ (if nat_le (spec.number_of radix digits.now) spec.largest then Some
        (pos (spec.number_of radix digits.now)) else None) }
{
    let mut number = 0u128;
    for c in digits {
        if *c != '_' {
            number = next_number(number, radix, digit_value(*c))?;
        }
    }
    Some(number as i128)
}

/// The value of a digit, from 0 to 35 with the letters, and 36 for any other character.
fn digit_value(c: char) -> u32
    ensures { result ≡ digit_value c }
{
    c.to_digit(36).unwrap_or(36)
}

/// The number with one more digit.
fn next_number(number: u128, radix: u32, digit: u32) -> Option<u128>
    requires { number < 2 ^ 127 }
    ensures { result ≡ (if nat_le (number * radix + digit) spec.largest then Some (number * radix + digit) else None) }
{
    let next = number
        .checked_mul(u128::from(radix))?
        .checked_add(u128::from(digit))?;
    if next <= i128::MAX as u128 {
        Some(next)
    } else {
        None
    }
}

fn is_letter(c: char) -> bool
    ensures { result ≡ spec.is_letter c }
{
    is_variable_start(c) || is_atom_start(c)
}
