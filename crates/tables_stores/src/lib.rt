//! Cases of terms, stores, and what is told of them: domains and texts of answers. Calls of built-ins, readings of constraints
//! and propagations are steps on stores.
#![tactic(auto)]

mod answers;
mod bench;
mod constraints;
mod kinds;
mod marks;
mod stores;
mod terms;
mod told;
mod words;

use crate::bench::Reading;
use tables_cases::{Case, named};

/// A subject of cases.
#[derive(Clone, Copy)]
enum Subject {
    Words,
    Terms,
    Answers,
    Marks,
    Told,
    /// Steps over both kinds of store.
    Stores,
    /// Steps over the copying one.
    Copies,
    Readings,
}

/// Each subject with its names.
const SUBJECTS: [(&str, Subject); 11] = [
    ("words", Subject::Words),
    ("terms", Subject::Terms),
    ("answers", Subject::Answers),
    ("marks", Subject::Marks),
    ("told", Subject::Told),
    ("stores", Subject::Stores),
    ("calls", Subject::Stores),
    ("propagations", Subject::Stores),
    ("greatest", Subject::Copies),
    ("greatest_calls", Subject::Copies),
    ("readings", Subject::Readings),
];

/// The subject with a name.
fn subject_of(name: &str) -> Option<Subject> {
    named(&SUBJECTS, name)
}

/// Answers a case of terms or stores, in a file with this text, and tells whether the subject is one of such cases.
pub fn answer_words(subject: &str, text: &str, case: &Case) -> bool {
    let Some(subject) = subject_of(subject) else {
        return false;
    };
    match subject {
        Subject::Words => words::answer(case),
        Subject::Terms => terms::answer(case),
        Subject::Answers => answers::answer(case),
        Subject::Marks => marks::answer(case),
        Subject::Told => told::answer(case, text),
        Subject::Stores => stores::answer(case),
        Subject::Copies => stores::answer_copying(case, Reading::Term),
        Subject::Readings => stores::answer_copying(case, Reading::Goal),
    }
    true
}
