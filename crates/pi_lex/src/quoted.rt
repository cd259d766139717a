//! Quoted atoms and texts.
ghost use Rattle.std.specs.Prelude.{◌≡◌, ◌≤◌, ◌<◌, false, length, drop, IfSome, OnOk, ◌++◌, string_bytes, string_len, encode_utf8_all, slice_index, ◌+◌, ◌*◌};
ghost use Rattle.pi_lex.specs.Items.{seen, FitsIn};
ghost use Rattle.pi_syntax.specs.Tokens as spec;

use crate::item::Item;
use std::alloc::AllocError;

/// An atom in single quotes.
#[tactic(auto, unfolding(pi_syntax::specs::Tokens::quoted))]
pub(crate) fn quoted_atom(text: &[char]) -> Item
    requires { 0 < length text.now }
    ensures value { seen text.now result ≡ spec.quoted spec.Atom text.now }
    ensures within { FitsIn text.now result }
{
    match closing_place(text) {
        Some(place) => Item::QuotedAtom(place),
        None => Item::Bad,
    }
}

/// A text in double quotes.
#[tactic(auto, unfolding(pi_syntax::specs::Tokens::quoted))]
pub(crate) fn quoted_text(text: &[char]) -> Item
    requires { 0 < length text.now }
    ensures value { seen text.now result ≡ spec.quoted spec.Str text.now }
    ensures within { FitsIn text.now result }
{
    match closing_place(text) {
        Some(place) => Item::Text(place),
        None => Item::Bad,
    }
}

fn closing_place(text: &[char]) -> Option<usize>
    requires { 0 < length text.now }
    ensures place { result ≡ spec.closing_place (slice_index text.now 0) false 1 (drop 1 text.now) }
    ensures within { IfSome result (λ place. (0 < place) × (place < length text.now)) }
{
    let quote = text[0];
    let mut behind_backslash = false;
    for at in 1..text.len() {
        let c = text[at];
        if behind_backslash {
            if escaped(c).is_none() {
                return None;
            }
            behind_backslash = false;
        } else if c == quote {
            return Some(at);
        } else if c == '\n' {
            return None;
        } else {
            behind_backslash = c == '\\';
        }
    }
    None
}

/// What a character behind a backslash stands for.
fn escaped(c: char) -> Option<char>
    ensures { result ≡ spec.escaped c }
{
    match c {
        '\\' | '\'' | '"' => Some(c),
        'n' => Some('\n'),
        't' => Some('\t'),
        _ => None,
    }
}

/// Appends what the characters between two quotes stand for.
#[tactic(auto, using(crate::proofs::StoreLemmas::encode_short))]
pub(crate) fn push_unescaped(buffer: &mut String, inside: &[char]) -> Result<(), AllocError>
    ensures bytes { OnOk result (string_bytes buffer.new ≡ string_bytes buffer.old ++ encode_utf8_all (spec.unescaped false inside.now)) }
    ensures grows { OnOk result (string_len buffer.new ≤ string_len buffer.old + 4 * length inside.now) }
{
    let mut behind_backslash = false;
    for c in inside {
        if behind_backslash {
            buffer.push(escaped(*c).unwrap_or(*c))?;
            behind_backslash = false;
        } else if *c == '\\' {
            behind_backslash = true;
        } else {
            buffer.push(*c)?;
        }
    }
    Ok(())
}
