//! Texts, and their tokens or their first fault.

use pi_lex::{LexFault, TokenKind, Tokens, tokens};
use tables_cases::{Case, Problem, bytes_of};

/// Tells the tokens of the text that a line is, each behind a space: a variable, a reserved word, an integer or a
/// sign as it is, an atom and a string in quotes, an end point as `<end>`, and behind one that isn't on line 1 its line.
pub fn answer(case: &Case, line: &str) {
    if let Some(tokens) = tokens_of(case, line) {
        tell_tokens(&tokens, case);
    }
}

/// The tokens of a text that a case writes; None where it has none, and its fault is told.
pub fn tokens_of(case: &Case, written: &str) -> Option<Tokens> {
    let text = bytes_of(case, written);
    match tokens(case.alloc, text.as_slice()) {
        Ok(tokens) => Some(tokens),
        Err(fault) => {
            tell_fault(fault, case);
            None
        }
    }
}

fn tell_tokens(tokens: &Tokens, case: &Case) {
    if tokens.is_empty() {
        case.tell("no token");
    }
    for i in 0..tokens.len() {
        case.tell_between(i, " ");
        tell_kind(tokens.kind(i), case);
        tell_line(tokens.line(i), case);
    }
}

fn tell_kind(kind: TokenKind<'_>, case: &Case) {
    match kind {
        TokenKind::Var(text) => case.tell(text),
        TokenKind::Word(text) => case.tell(text),
        TokenKind::Sign(text) => case.tell(text),
        TokenKind::Atom(text) => tell_quoted('\'', text, case),
        TokenKind::Str(text) => tell_quoted('"', text, case),
        TokenKind::Int(value) => case.tell_integer(value),
        TokenKind::End => case.tell("<end>"),
    }
}

/// Tells a line that isn't the first one.
fn tell_line(line: u64, case: &Case) {
    if line != 1 {
        case.tell("@");
        case.tell_number(line);
    }
}

/// Tells a text in quotes, with each quote in it escaped.
fn tell_quoted(quote: char, text: &str, case: &Case) {
    case.tell_character(quote);
    for c in text.chars() {
        if c == '\'' || c == '"' {
            case.tell_character('\\');
        }
        case.tell_escaped_character(c);
    }
    case.tell_character(quote);
}

fn tell_fault(fault: LexFault, case: &Case) {
    match fault {
        LexFault::TooLong => case.tell("too long"),
        LexFault::NotUtf8 { at } => tell_at("not UTF-8 at byte ", at as u64, case),
        LexFault::BadToken { line } => tell_at("bad token on line ", line, case),
        LexFault::WideInteger { line } => tell_at("wide integer on line ", line, case),
        LexFault::Memory => case.fail(Problem::Memory),
    }
}

/// Tells what is somewhere, and where.
fn tell_at(what: &str, place: u64, case: &Case) {
    case.tell(what);
    case.tell_number(place);
}
