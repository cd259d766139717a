//! Sessions: their status, and what they write, with `\n` for a line feed.
//! Among the words stand numbers, as `piece=1 input=6 --mode=session FILE ⊢ p(X)\n;`: how many bytes a read of the input gives at
//! most (`piece`), how many the input may have (`most`), and which read of the file (`read`), read of the input or write fails.

ghost use Rattle.std.specs.Prelude.{◌≤◌};

use crate::whole::command::{ASKED, HOLDS, files_of, parts, push_word};
use crate::whole::runs::{ROOM, tell_outcome};
use pi_outside::{MemoryFiles, MemorySink, MemorySource};
use pi_top::picatq_limited;
use tables_cases::{Case, bytes_of};

/// How many bytes a read of the input gives at most, where a case doesn't say so.
const PIECE: u64 = 65_536;

/// How many bytes the input may have, where a case doesn't say so.
const MOST: u64 = 1_073_741_824;

/// What a case says of the calls.
#[derive(Clone, Copy)]
struct Calls {
    /// How many bytes a read of the input gives at most.
    piece: u64,
    /// How many bytes the input may have.
    most: u64,
    /// The read of the file that fails.
    read: u64,
    /// The read of the input that fails.
    input: u64,
    /// The write that fails.
    write: u64,
}

/// Tells what a session comes to. Behind `⊢` stands its input.
pub(crate) fn answer(case: &Case, text: &str, line: &str) {
    let mut calls = Calls {
        piece: PIECE,
        most: MOST,
        read: 0,
        input: 0,
        write: 0,
    };
    let (front, given) = parts(line, ASKED);
    let (front, held) = parts(front, HOLDS);
    let mut words = Vec::new(case.alloc);
    for word in front.split_whitespace() {
        if !takes(word, &mut calls) {
            push_word(case, word, &mut words);
        }
    }
    let mut files = files_of(case, text, held);
    let noted = files.fail_at(calls.read);
    case.done(noted);
    let given = bytes_of(case, given.unwrap_or(""));
    let input = MemorySource::new(case.alloc, given.as_slice(), piece_of(calls));
    if let Some(mut input) = case.made(input) {
        let noted = input.fail_at(calls.input);
        case.done(noted);
        run_over(case, words.as_slice(), &mut files, &mut input, calls);
    }
}

/// How many bytes a read gives at most, one at least.
fn piece_of(calls: Calls) -> usize
    ensures { 1 ≤ result }
{
    (calls.piece as usize).max(1)
}

/// Tells what a session comes to over this input.
fn run_over(
    case: &Case,
    words: &[String],
    files: &mut MemoryFiles,
    input: &mut MemorySource,
    calls: Calls,
) {
    let out = MemorySink::new(case.alloc, ROOM);
    if let Some(mut out) = case.made(out) {
        let noted = out.fail_at(calls.write);
        case.done(noted);
        let outcome = picatq_limited(case.alloc, words, files, input, &mut out, calls.most);
        tell_outcome(case, &outcome, &out);
    }
}

/// Whether the word says something of the calls, which is noted then.
fn takes(word: &str, calls: &mut Calls) -> bool {
    let Some((name, number)) = word.split_once('=') else {
        return false;
    };
    let Ok(number) = number.parse() else {
        return false;
    };
    match name {
        "piece" => calls.piece = number,
        "most" => calls.most = number,
        "read" => calls.read = number,
        "input" => calls.input = number,
        "write" => calls.write = number,
        _ => return false,
    }
    true
}
