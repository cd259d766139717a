//! Cases of values and of readers: domains, integers, regions, filters, planners and the outside; tokens, expressions,
//! programs, built-in names and the prelude.
#![tactic(auto)]

mod domains;
mod filters;
mod graph;
mod integers;
mod outside;
mod planners;
mod readers;
mod regions;

use pi_outside::Files;
pub use readers::answer_text;
use tables_cases::{Case, named};

/// A subject of cases of words.
#[derive(Clone, Copy)]
enum Subject {
    Domains,
    Filters,
    Integers,
    Plans,
    Prelude,
    Regions,
}

/// Each subject with its name.
const SUBJECTS: [(&str, Subject); 6] = [
    ("domains", Subject::Domains),
    ("filters", Subject::Filters),
    ("integers", Subject::Integers),
    ("plans", Subject::Plans),
    ("prelude", Subject::Prelude),
    ("regions", Subject::Regions),
];

/// The subject with a name.
fn subject_of(name: &str) -> Option<Subject> {
    named(&SUBJECTS, name)
}

/// Answers a case of domains, integers, regions, filters, planners or the prelude, and tells whether the subject is one of them.
pub fn answer_words(subject: &str, case: &Case) -> bool {
    let Some(subject) = subject_of(subject) else {
        return false;
    };
    match subject {
        Subject::Domains => domains::answer(case),
        Subject::Filters => filters::answer(case),
        Subject::Integers => integers::answer(case),
        Subject::Plans => planners::answer(case),
        Subject::Prelude => readers::prelude::answer(case),
        Subject::Regions => regions::answer(case),
    }
    true
}

/// Answers a case of the outside, whose real files are handed in, and tells whether the subject is the outside.
pub fn answer_outside<R: Print + Input + AllocGlobal, F: Files>(
    rt: &R,
    files: &mut F,
    subject: &str,
    case: &Case,
) -> bool {
    let is_outside = subject == "outside";
    if is_outside {
        outside::answer(rt, files, case);
    }
    is_outside
}
