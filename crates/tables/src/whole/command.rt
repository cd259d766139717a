//! Command lines: `--steps 1 FILE: p(X) => X = 1. ⊢ p(X), q(X)`. First stand the words between blanks, then behind `:` what
//! the file `FILE` holds, and behind `⊢` one more word, in which blanks stand as they are. Where there is no `:`, the lines
//! that begin with `&` are the text
//! in `FILE`. Words and texts may have escapes and pieces that are repeated: see `bytes_of` of `tables_cases`.

use pi_outside::MemoryFiles;
use tables_cases::{Case, bytes_of};

/// The name of the file.
const FILE: &str = "FILE";

/// What stands in front of the text in the file.
pub(crate) const HOLDS: char = ':';

/// What stands in front of the last word.
pub(crate) const ASKED: char = '⊢';

/// How a line of the text in the file begins, where it is the same for all cases.
const GIVEN: char = '&';

/// What stands in front of a mark and behind it, where it is there, without blanks at both ends.
pub(crate) fn parts(line: &str, mark: char) -> (&str, Option<&str>) {
    match line.split_once(mark) {
        Some((front, rest)) => (front, Some(rest.trim())),
        None => (line, None),
    }
}

/// The words of a command line.
pub(crate) fn words_of(case: &Case, front: &str, last: Option<&str>) -> Vec<String> {
    let mut words = Vec::new(case.alloc);
    for word in front.split_whitespace() {
        push_word(case, word, &mut words);
    }
    if let Some(last) = last {
        push_word(case, last, &mut words);
    }
    words
}

/// Appends a word as it is meant.
pub(crate) fn push_word(case: &Case, written: &str, words: &mut Vec<String>) {
    match String::from_utf8(bytes_of(case, written)) {
        Ok(word) => case.keep(Some(word), words),
        Err(_) => case.lacks("words that are texts"),
    }
}

/// The files of a run.
pub(crate) fn files_of(case: &Case, text: &str, held: Option<&str>) -> MemoryFiles {
    let mut files = MemoryFiles::new(case.alloc);
    let held = match held {
        Some(held) => bytes_of(case, held),
        None => given(case, text),
    };
    let added = files.add(FILE, held.as_slice());
    case.done(added);
    files
}

/// The lines of a text that begin with `&`.
fn given(case: &Case, text: &str) -> Vec<u8> {
    let mut bytes = Vec::new(case.alloc);
    for line in text.lines() {
        if let Some(line) = line.strip_prefix(GIVEN) {
            push_line(case, line.strip_prefix(' ').unwrap_or(line), &mut bytes);
        }
    }
    bytes
}

/// Appends a line.
fn push_line(case: &Case, line: &str, bytes: &mut Vec<u8>) {
    let added = bytes.extend_from_slice(line.as_bytes());
    case.done(added);
    let added = bytes.push(b'\n');
    case.done(added);
}
