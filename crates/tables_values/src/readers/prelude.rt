//! The prelude's text, its parts, and its verdict as a program.

use crate::readers::programs::{read, tell_kinds};
use pi_lib::prelude;
use pi_prog::read_prelude;
use std::alloc::{AllocError, Global};
use tables_cases::{Case, named};

/// What is asked of the prelude.
#[derive(Clone, Copy)]
enum Asked {
    Bytes,
    Lines,
    Line,
    Parts,
    Read,
}

/// Each question with its word.
const QUESTIONS: [(&str, Asked); 5] = [
    ("bytes", Asked::Bytes),
    ("lines", Asked::Lines),
    ("line", Asked::Line),
    ("parts", Asked::Parts),
    ("read", Asked::Read),
];

/// What a word asks.
fn asked_by(word: &str) -> Option<Asked> {
    named(&QUESTIONS, word)
}

/// Tells what a case asks: how many `bytes` or `lines` the text has, a `line` by its number from 1 on, what its `parts`
/// are, or what it is when it is `read` as a user's program, with the names renamed that stand behind the word, each with
/// the new name.
pub fn answer(case: &Case) {
    match asked_by(case.take_word()) {
        Some(Asked::Bytes) => case.tell_count(prelude().len()),
        Some(Asked::Lines) => case.tell_count(prelude().split_terminator('\n').count()),
        Some(Asked::Line) => tell_line(case),
        Some(Asked::Parts) => tell_parts(case),
        Some(Asked::Read) => tell_verdict(case),
        None => case.lacks("what is asked of the prelude"),
    }
}

fn tell_line(case: &Case) {
    let number = case.take_count();
    let line = prelude().lines().nth(number.saturating_sub(1));
    case.tell(line.unwrap_or(""));
}

fn tell_parts(case: &Case) {
    let program = read_prelude(case.alloc);
    if let Some(program) = case.made(program) {
        tell_kinds(program.parts.as_slice(), case);
    }
}

fn tell_verdict(case: &Case) {
    let names = case.take_rest();
    let text = renamed(case.alloc, names);
    if let Some(text) = case.made(text)
        && read(case, text.as_str()).is_some()
    {
        case.tell("sound");
    }
}

/// The prelude with other names for some.
fn renamed(alloc: Global, names: &[String]) -> Result<String, AllocError> {
    let mut text = String::from_str(alloc, prelude())?;
    for pair in names.chunks_exact(2) {
        if let [name, other] = pair {
            text = with_name(alloc, text.as_str(), name.as_str(), other.as_str())?;
        }
    }
    Ok(text)
}

/// The text with another name in each call of one.
fn with_name(alloc: Global, text: &str, name: &str, other: &str) -> Result<String, AllocError> {
    let name = format!(in alloc; "{name}(")?;
    let other = format!(in alloc; "{other}(")?;
    text.replace(alloc, name.as_str(), other.as_str())
}
