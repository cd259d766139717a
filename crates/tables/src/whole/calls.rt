//! The calls of the top crate beside `picatq`. `read_words WORD ..` tells what the words of a command line ask; `demo_text N` the demo
//! program over N places; `unbuilt PROGRAM` the first part that isn't built; `unbuilt_goal GOAL` whether a goal isn't, of an empty program.

use crate::whole::command::words_of;
use pi_top::judgement::{Refusal, goal_of, program_of};
use pi_top::{Options, RunMode, WordsFault, demo_text, read_words, unbuilt, unbuilt_goal};
use tables_cases::{Case, Problem, bytes_of, named};

/// A call.
#[derive(Clone, Copy)]
enum Call {
    ReadWords,
    DemoText,
    Unbuilt,
    UnbuiltGoal,
}

/// Each call with its name.
const CALLS: [(&str, Call); 4] = [
    ("read_words", Call::ReadWords),
    ("demo_text", Call::DemoText),
    ("unbuilt", Call::Unbuilt),
    ("unbuilt_goal", Call::UnbuiltGoal),
];

/// The call with a name.
fn call_of(name: &str) -> Option<Call> {
    named(&CALLS, name)
}

/// Tells what a call gives, whose name stands in front.
pub(crate) fn answer(case: &Case, line: &str) {
    let (name, rest) = line.split_once(' ').unwrap_or((line, ""));
    match call_of(name) {
        Some(Call::ReadWords) => tell_asked(case, rest),
        Some(Call::DemoText) => tell_demo(case, rest),
        Some(Call::Unbuilt) => tell_unbuilt(case, rest),
        Some(Call::UnbuiltGoal) => tell_unbuilt_goal(case, rest),
        None => case.lacks("the name of a call in front"),
    }
}

/// Tells what words ask.
fn tell_asked(case: &Case, written: &str) {
    let words = words_of(case, written, None);
    match read_words(case.alloc, words.as_slice()) {
        Ok(asked) => tell_options(case, &asked),
        Err(WordsFault::NoRecord) => case.tell("no record"),
        Err(WordsFault::Memory) => case.fail(Problem::Memory),
    }
}

fn tell_options(case: &Case, asked: &Options) {
    case.tell(match asked.mode {
        RunMode::Query => "query",
        RunMode::Run => "run",
        RunMode::Session => "session",
        RunMode::Print => "print",
        RunMode::Demo => "demo",
    });
    tell_number(case, asked.answers);
    tell_number(case, asked.steps);
    tell_number(case, asked.work);
    tell_word(case, asked.file.as_str());
    if let Some(goal) = &asked.goal {
        tell_word(case, goal.as_str());
    }
}

fn tell_number(case: &Case, number: u64) {
    case.tell(" ");
    case.tell_number(number);
}

fn tell_word(case: &Case, word: &str) {
    case.tell(" ");
    case.tell_escaped(word);
}

/// Tells the demo program.
fn tell_demo(case: &Case, written: &str) {
    match written.parse() {
        Ok(places) if 1 <= places && places <= 400 => {
            let text = demo_text(case.alloc, places);
            if let Some(text) = case.made(text) {
                case.tell_escaped(text.as_str());
            }
        }
        _ => case.lacks("a number of places, 1 to 400"),
    }
}

/// Tells the first part of a program that isn't built.
fn tell_unbuilt(case: &Case, written: &str) {
    match program_of(case.alloc, bytes_of(case, written)) {
        Ok(program) => match unbuilt(&program) {
            Some(number) => case.tell_number(number),
            None => case.tell("none"),
        },
        Err(refusal) => note(case, &refusal),
    }
}

/// Tells whether a goal isn't built.
fn tell_unbuilt_goal(case: &Case, written: &str) {
    let goal = bytes_of(case, written);
    match program_of(case.alloc, Vec::new(case.alloc)) {
        Ok(program) => match goal_of(case.alloc, goal.as_slice(), &program) {
            Ok(goal) => case.tell_whether(unbuilt_goal(&goal)),
            Err(refusal) => note(case, &refusal),
        },
        Err(refusal) => note(case, &refusal),
    }
}

/// Notes that a text has a fault, or that memory was wanted.
fn note(case: &Case, refusal: &Refusal) {
    match refusal {
        Refusal::Line(_) => case.lacks("a text without a fault"),
        Refusal::Memory => case.fail(Problem::Memory),
    }
}
