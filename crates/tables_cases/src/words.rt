//! Words of a case, and words that stand for many.

use crate::fault::Problem;
use std::alloc::{AllocError, Global};

/// How many words a case can have.
const MOST: usize = 4_000_000;

/// What ends a step, as a word or at the end of one.
pub const STEP: &str = ";";

/// The words of a line in order. `3*f` is the word `f` three times.
pub fn words_of(alloc: Global, line: &str) -> Result<Vec<String>, Problem> {
    let mut words = Vec::new(alloc);
    for word in line.split_whitespace() {
        push_word(alloc, word, &mut words)?;
    }
    Ok(words)
}

/// Appends a word, and the end of a step where it stands right behind it.
fn push_word(alloc: Global, word: &str, words: &mut Vec<String>) -> Result<(), Problem> {
    match word.strip_suffix(STEP) {
        Some(word) if !word.is_empty() => {
            push_times(alloc, word, words)?;
            push_times(alloc, STEP, words)
        }
        _ => push_times(alloc, word, words),
    }
}

/// Appends a word as often as it is meant.
fn push_times(alloc: Global, word: &str, words: &mut Vec<String>) -> Result<(), Problem> {
    let (count, word) = repeated(word);
    if count > MOST.saturating_sub(words.len()) {
        return Err(Problem::Lacks("fewer words"));
    }
    for _ in 0..count {
        if push_copy(alloc, word, words).is_err() {
            return Err(Problem::Memory);
        }
    }
    Ok(())
}

/// Appends a word as it stands.
fn push_copy(alloc: Global, word: &str, words: &mut Vec<String>) -> Result<(), AllocError> {
    let word = String::from_str(alloc, word)?;
    words.push(word)?;
    Ok(())
}

/// How often a word is meant, and the word.
fn repeated(word: &str) -> (usize, &str) {
    match word.split_once('*') {
        Some((count, repeated)) if !repeated.is_empty() => match count.parse() {
            Ok(count) => (count, repeated),
            Err(_) => (1, word),
        },
        _ => (1, word),
    }
}
