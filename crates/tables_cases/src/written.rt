//! Texts as a case writes them: with escapes, and with pieces that are repeated.

use crate::case::Case;
use crate::fault::Problem;
use crate::nodes::unquoted;
use pi_types::Text;
use std::str;

/// How often a piece can be repeated.
const MOST: usize = 20_000_000;

/// The bytes of a text that a case writes. `\n`, `\r`, `\t` and `\\` are a line feed, a carriage return, a tab and `\`,
/// `\s` a blank, `\xff` is a byte, `«3*ab»` is `ababab`, and `«»` is nothing. In a piece that is repeated, `№` is the number of the
/// time, from 0 on.
pub fn bytes_of(case: &Case, written: &str) -> Vec<u8> {
    let mut bytes = Vec::new(case.alloc);
    let (first, parts) = written.split_once('«').unwrap_or((written, ""));
    push_plain(case, first, &mut bytes);
    if first.len() < written.len() {
        for part in parts.split('«') {
            push_part(case, part, &mut bytes);
        }
    }
    bytes
}

impl Case {
    /// The name that a word is, which has quotes around it where it looks like something else. In quotes there may be escapes.
    pub fn name_of(&self, word: &str) -> Text {
        match unquoted(word) {
            Some(inner) => {
                let mut bytes = Vec::new(self.alloc);
                push_plain(self, inner, &mut bytes);
                self.text(str::from_utf8(bytes.as_slice()).unwrap_or(""))
            }
            None => self.text(word),
        }
    }

    /// A text with these characters; an empty one where memory is wanted.
    pub fn text(&self, text: &str) -> Text {
        let made = Text::new(self.alloc, text);
        match self.made(made) {
            Some(text) => text,
            None => Text::empty(),
        }
    }
}

/// Appends a piece that is repeated, and what stands behind it.
fn push_part(case: &Case, part: &str, bytes: &mut Vec<u8>) {
    match part.split_once('»') {
        Some((piece, rest)) => {
            push_repeated(case, piece, bytes);
            push_plain(case, rest, bytes);
        }
        None => case.lacks("a » behind each «"),
    }
}

/// Appends what stands between `«` and `»`.
fn push_repeated(case: &Case, written: &str, bytes: &mut Vec<u8>) {
    if written.is_empty() {
        return;
    }
    let (count, piece) = written.split_once('*').unwrap_or(("", ""));
    let count = count.parse().unwrap_or(usize::MAX);
    if count > MOST {
        return case.lacks("how often a piece is repeated, and a *");
    }
    match piece.split_once('№') {
        Some((before, after)) => push_numbered(case, count, before, after, bytes),
        None => push_times(case, count, piece, bytes),
    }
}

/// Appends a piece so many times.
fn push_times(case: &Case, count: usize, piece: &str, bytes: &mut Vec<u8>) {
    let mut once = Vec::new(case.alloc);
    push_plain(case, piece, &mut once);
    for _ in 0..count {
        push_all(case, once.as_slice(), bytes);
    }
}

/// Appends a piece so many times, each with its number in it.
fn push_numbered(case: &Case, count: usize, before: &str, after: &str, bytes: &mut Vec<u8>) {
    for i in 0..count {
        push_plain(case, before, bytes);
        let number = i.to_string(case.alloc);
        if let Some(number) = case.made(number) {
            push_all(case, number.as_str().as_bytes(), bytes);
        }
        push_plain(case, after, bytes);
    }
}

/// Appends bytes as they are.
fn push_all(case: &Case, more: &[u8], bytes: &mut Vec<u8>) {
    if bytes.extend_from_slice(more).is_err() {
        case.fail(Problem::Memory);
    }
}

/// What was read of an escape.
#[derive(Clone, Copy)]
enum Escape {
    Nothing,
    Backslash,
    Hex,
    HexDigit(u8),
}

/// Appends a text in which nothing is repeated.
fn push_plain(case: &Case, written: &str, bytes: &mut Vec<u8>) {
    let mut escape = Escape::Nothing;
    for byte in written.as_bytes() {
        let (next, plain) = step(case, escape, *byte);
        case.keep(plain, bytes);
        escape = next;
    }
    if !matches!(escape, Escape::Nothing) {
        case.lacks("the end of an escape");
    }
}

/// What is read of an escape behind a byte, and the byte that is there then.
fn step(case: &Case, escape: Escape, byte: u8) -> (Escape, Option<u8>) {
    let plain = match escape {
        Escape::Nothing if byte == b'\\' => return (Escape::Backslash, None),
        Escape::Nothing => byte,
        Escape::Backslash if byte == b'x' => return (Escape::Hex, None),
        Escape::Backslash => escaped(case, byte),
        Escape::Hex => return (Escape::HexDigit(digit(case, byte)), None),
        Escape::HexDigit(high) => (high << 4) | digit(case, byte),
    };
    (Escape::Nothing, Some(plain))
}

/// The byte that one behind a `\` stands for.
fn escaped(case: &Case, byte: u8) -> u8 {
    match byte {
        b'n' => b'\n',
        b'r' => b'\r',
        b't' => b'\t',
        b's' => b' ',
        b'\\' => b'\\',
        other => {
            case.lacks("a known escape");
            other
        }
    }
}

/// The digit of base 16 that a byte writes.
fn digit(case: &Case, byte: u8) -> u8 {
    match byte {
        b'0'..=b'9' => byte - b'0',
        b'a'..=b'f' => byte - b'a' + 10,
        _ => {
            case.lacks("two digits behind \\x");
            0
        }
    }
}
