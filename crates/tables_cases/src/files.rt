//! The cases of files, one after the other.

use crate::case::Case;
use crate::fault::Problem;
use crate::given::GIVEN;
use crate::words::words_of;
use std::env::Args;
use std::process::ExitCode;
use std::rt::{Env, Files};
use std::{env, fs, io};

/// How a line begins that is no case and isn't written.
const COMMENT: char = '%';

/// How many characters of an answer are written in full.
const MOST: usize = 4_000;

/// How many characters of a longer one are written from its beginning.
const BEGINNING: usize = 60;

/// How many from its end.
const END: usize = 20;

/// The status of a run without a fault.
const RIGHT: u8 = 0;

/// What answers the cases of a program's files.
pub trait Subjects<R> {
    /// Answers a case that is a line of a file with this text, and tells whether the subject is one of such cases.
    fn answer_text(&mut self, rt: &R, subject: &str, text: &str, line: &str, case: &Case) -> bool;

    /// Answers a case of words in a file with this text, and tells whether the subject is one of such cases.
    fn answer_words(&mut self, rt: &R, subject: &str, text: &str, case: &Case) -> bool;
}

/// Reads the files that the words behind the program's name tell, and writes each case with what it gives, up to the first fault.
pub fn run<R: Env + Files + Print + AllocGlobal, S: Subjects<R>>(
    rt: &R,
    subjects: &mut S,
) -> ExitCode {
    let status = match env::args(rt) {
        Ok(args) => run_files(rt, subjects, args),
        Err(error) => tell(rt, "words", 0, problem_of(&error)),
    };
    ExitCode::from(status)
}

/// Why the words didn't come.
fn problem_of(error: &io::Error) -> Problem {
    match error.kind() {
        io::ErrorKind::InvalidData => Problem::Words,
        _ => Problem::Memory,
    }
}

/// Writes the line of a fault, and gives its status.
fn tell<R: Print>(rt: &R, name: &str, line: usize, problem: Problem) -> u8 {
    let text = problem.text();
    let _ = println!(rt; "{name}, line {line}: {text}");
    problem.status()
}

/// Writes the cases of files in their order, up to the first fault, and gives the status.
fn run_files<R: Files + Print + AllocGlobal, S: Subjects<R>>(
    rt: &R,
    subjects: &mut S,
    args: Args,
) -> u8 {
    let mut status = RIGHT;
    for name in args.skip(1) {
        if status == RIGHT {
            status = run_file(rt, subjects, name.as_str());
        }
    }
    status
}

/// Writes a heading and then a line for each case of a file.
fn run_file<R: Files + Print + AllocGlobal, S: Subjects<R>>(
    rt: &R,
    subjects: &mut S,
    name: &str,
) -> u8 {
    let Ok(text) = fs::read_to_string(rt, name) else {
        return tell(rt, name, 0, Problem::Read);
    };
    if println!(rt; "== {name}").is_err() {
        return tell(rt, name, 0, Problem::Write);
    }
    run_lines(rt, subjects, name, text.as_str())
}

/// Writes each line of a file, up to the first fault.
fn run_lines<R: Print + AllocGlobal, S: Subjects<R>>(
    rt: &R,
    subjects: &mut S,
    name: &str,
    text: &str,
) -> u8 {
    let subject = subject_of(name);
    let mut number = 0usize;
    for line in text.lines() {
        number = number.saturating_add(1);
        if let Some(problem) = run_line(rt, subjects, subject, text, line) {
            return tell(rt, name, number, problem);
        }
    }
    RIGHT
}

/// The subject of a file's cases: its name up to the first dot.
fn subject_of(name: &str) -> &str {
    match name.split_once('.') {
        Some((subject, _)) => subject,
        None => name,
    }
}

/// Writes a line of a file, and where it is a case what it gives.
fn run_line<R: Print + AllocGlobal, S: Subjects<R>>(
    rt: &R,
    subjects: &mut S,
    subject: &str,
    text: &str,
    line: &str,
) -> Option<Problem> {
    if line.is_empty() || line.starts_with(COMMENT) {
        return None;
    }
    if line.starts_with(GIVEN) {
        return failed(rt.println(line));
    }
    let case = Case::wordless(rt.alloc());
    if subjects.answer_text(rt, subject, text, line, &case) {
        return write_case(rt, line, &case);
    }
    run_words(rt, subjects, subject, text, line)
}

/// Writes a case of words and what it gives.
fn run_words<R: Print + AllocGlobal, S: Subjects<R>>(
    rt: &R,
    subjects: &mut S,
    subject: &str,
    text: &str,
    line: &str,
) -> Option<Problem> {
    let words = match words_of(rt.alloc(), line) {
        Ok(words) => words,
        Err(problem) => return Some(problem),
    };
    let case = Case::new(rt.alloc(), words);
    if !subjects.answer_words(rt, subject, text, &case) {
        case.lacks("a subject in front of the file's first dot");
    }
    case.take_end();
    write_case(rt, line, &case)
}

/// Writes a case and what it gives, unless it has a fault.
fn write_case<R: Print>(rt: &R, line: &str, case: &Case) -> Option<Problem> {
    if case.problem().is_some() {
        return case.problem();
    }
    let answer = case.take_answer();
    let answer = answer.as_str();
    let count = answer.chars().count();
    if count <= MOST {
        failed(println!(rt; "{line}  =>  {answer}"))
    } else {
        write_long(rt, line, answer, count)
    }
}

/// Writes a case and of a long answer its beginning, its end and the number of its characters.
fn write_long<R: Print>(rt: &R, line: &str, answer: &str, count: usize) -> Option<Problem> {
    let beginning = answer.get(..place(answer, BEGINNING)).unwrap_or("");
    let end = place(answer, count.saturating_sub(END));
    let end = answer.get(end..).unwrap_or("");
    failed(println!(rt; "{line}  =>  {beginning} .. {end} ({count} characters)"))
}

/// Where the character with a number from 0 on begins; the end where there is none.
fn place(text: &str, number: usize) -> usize {
    match text.char_indices().nth(number) {
        Some((at, _)) => at,
        None => text.len(),
    }
}

/// The fault that a write has.
fn failed(written: io::Result<()>) -> Option<Problem> {
    match written {
        Ok(()) => None,
        Err(_) => Some(Problem::Write),
    }
}
