//! Terms as they are written down, and their texts.

use pi_print::term_text;
use pi_types::{Term, TermHead};
use std::alloc::AllocError;
use tables_cases::{Case, named};

/// What is asked of a term.
#[derive(Clone, Copy)]
enum Asked {
    Parts,
    Copy,
    Renumbered,
    Quoted,
    Plain,
}

/// Each question with its word.
const QUESTIONS: [(&str, Asked); 5] = [
    ("parts", Asked::Parts),
    ("copy", Asked::Copy),
    ("renumbered", Asked::Renumbered),
    ("quoted", Asked::Quoted),
    ("plain", Asked::Plain),
];

/// What a word asks.
fn asked_by(word: &str) -> Option<Asked> {
    named(&QUESTIONS, word)
}

/// Tells what a term gives: `parts`, its cells, itself and its arguments; `copy` and `renumbered`, another term;
/// `quoted` and `plain`, its text.
pub fn answer(case: &Case) {
    let asked = asked_by(case.take_word());
    let Some(term) = case.take_term() else {
        return;
    };
    match asked {
        Some(asked) => tell_asked(&term, asked, case),
        None => case.lacks("what is asked of a term"),
    }
}

/// Tells what is asked of a term.
fn tell_asked(term: &Term, asked: Asked, case: &Case) {
    match asked {
        Asked::Parts => tell_parts(term, case),
        Asked::Copy => tell_made(term.copy(case.alloc), case),
        Asked::Renumbered => tell_made(term.renumbered(case.alloc), case),
        Asked::Quoted => tell_text(term, true, case),
        Asked::Plain => tell_text(term, false, case),
    }
}

/// Tells a term that was made.
fn tell_made(made: Result<Term, AllocError>, case: &Case) {
    if let Some(term) = case.made(made) {
        case.tell_term(&term);
    }
}

/// Tells the text of a term.
fn tell_text(term: &Term, is_quoted: bool, case: &Case) {
    let text = term_text(case.alloc, term, is_quoted);
    if let Some(text) = case.made(text) {
        case.tell_escaped(text.as_str());
    }
}

/// Tells the number of a term's cells, what it is at its root, and each of its arguments.
fn tell_parts(term: &Term, case: &Case) {
    case.tell_count(term.cells());
    case.tell(" cells, ");
    case.tell_head(term.head());
    if let TermHead::Comp(_, count) = term.head() {
        for i in 0..count {
            case.tell(", ");
            let arg = term.arg(case.alloc, i);
            tell_made(arg, case);
        }
    }
}
