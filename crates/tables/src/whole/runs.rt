//! Runs of the whole program: their status, and what they write, with `\n` for a line feed.

use crate::whole::command::{ASKED, HOLDS, files_of, parts, words_of};
use pi_outside::{MemoryFiles, MemorySink, SureSource};
use pi_top::{Outcome, picatq};
use std::str;
use tables_cases::Case;

/// How many bytes a run writes at most.
pub(crate) const ROOM: usize = 4_000;

/// A call that fails.
#[derive(Clone, Copy)]
pub(crate) enum Failing {
    Read,
    Write,
}

/// The number of a call that never comes.
const NEVER: u64 = 0;

/// Tells what a run comes to.
pub(crate) fn answer(case: &Case, text: &str, line: &str) {
    run(case, text, line, NEVER, NEVER);
}

/// Tells what a run comes to in which a call fails, whose number stands in front: `2 FILE ⊢ p(X)`.
pub(crate) fn answer_failing(case: &Case, text: &str, line: &str, failing: Failing) {
    let (number, line) = line.split_once(' ').unwrap_or((line, ""));
    let Ok(number) = number.parse() else {
        return case.lacks("the number of a call in front");
    };
    match failing {
        Failing::Read => run(case, text, line, number, NEVER),
        Failing::Write => run(case, text, line, NEVER, number),
    }
}

/// Tells what a run comes to in which the read and the write of these numbers fail.
fn run(case: &Case, text: &str, line: &str, read: u64, write: u64) {
    let (front, last) = parts(line, ASKED);
    let (front, held) = parts(front, HOLDS);
    let words = words_of(case, front, last);
    let mut files = files_of(case, text, held);
    let noted = files.fail_at(read);
    case.done(noted);
    run_over(case, words.as_slice(), &mut files, write);
}

/// Tells what a run over these files comes to.
fn run_over(case: &Case, words: &[String], files: &mut MemoryFiles, write: u64) {
    let out = MemorySink::new(case.alloc, ROOM);
    if let Some(mut out) = case.made(out) {
        let noted = out.fail_at(write);
        case.done(noted);
        run_into(case, words, files, &mut out);
    }
}

/// Tells what a run with this output comes to. There is no input.
fn run_into(case: &Case, words: &[String], files: &mut MemoryFiles, out: &mut MemorySink) {
    let input = SureSource::new(case.alloc, b"", 1);
    if let Some(mut input) = case.made(input) {
        let outcome = picatq(case.alloc, words, files, &mut input, out);
        tell_outcome(case, &outcome, out);
    }
}

/// Tells a run's status, and what it wrote.
pub(crate) fn tell_outcome(case: &Case, outcome: &Outcome, out: &MemorySink) {
    case.tell_number(u64::from(outcome.status));
    tell_written(case, out.bytes());
}

/// Tells what was written, if anything.
fn tell_written(case: &Case, bytes: &[u8]) {
    if !bytes.is_empty() {
        case.tell(" ");
    }
    match str::from_utf8(bytes) {
        Ok(text) => case.tell_escaped(text),
        Err(_) => case.lacks("a text that is written"),
    }
}
