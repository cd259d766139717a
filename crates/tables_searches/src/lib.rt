//! Cases of the search that learns: systems of constraints with what the search over them ends in, and logs with whether they
//! are right.
#![tactic(auto)]

mod logs;
mod searches;
mod systems;

use tables_cases::{Case, named};

/// A subject of cases.
#[derive(Clone, Copy)]
enum Subject {
    Searches,
    Logs,
}

/// Each subject with its name.
const SUBJECTS: [(&str, Subject); 2] = [("searches", Subject::Searches), ("logs", Subject::Logs)];

/// The subject with a name.
fn subject_of(name: &str) -> Option<Subject> {
    named(&SUBJECTS, name)
}

/// Answers a case of searches or of logs, and tells whether the subject is one of them.
pub fn answer_words(subject: &str, case: &Case) -> bool {
    let Some(subject) = subject_of(subject) else {
        return false;
    };
    match subject {
        Subject::Searches => searches::answer(case),
        Subject::Logs => logs::answer(case),
    }
    true
}
