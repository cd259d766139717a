//! Cases of readers: of texts, as tokens, expressions, programs, goals and built-in names; and of the prelude.
mod builtins;
mod expressions;
mod places;
pub(crate) mod prelude;
mod programs;
mod tokens;

use tables_cases::{Case, named};

/// A subject of cases that are texts.
#[derive(Clone, Copy)]
enum Subject {
    Tokens,
    Expressions,
    LongExpressions,
    Programs,
    Goals,
    Parts,
    Places,
    Trees,
    Builtins,
}

/// Each subject with its name.
const SUBJECTS: [(&str, Subject); 9] = [
    ("tokens", Subject::Tokens),
    ("expressions", Subject::Expressions),
    ("long_expressions", Subject::LongExpressions),
    ("programs", Subject::Programs),
    ("goals", Subject::Goals),
    ("parts", Subject::Parts),
    ("places", Subject::Places),
    ("trees", Subject::Trees),
    ("builtins", Subject::Builtins),
];

/// The subject with a name.
fn subject_of(name: &str) -> Option<Subject> {
    named(&SUBJECTS, name)
}

/// Answers a case of a text that is read, and tells whether the subject is one of such cases.
pub fn answer_text(subject: &str, line: &str, case: &Case) -> bool {
    let Some(subject) = subject_of(subject) else {
        return false;
    };
    match subject {
        Subject::Tokens => tokens::answer(case, line),
        Subject::Expressions => expressions::tell_canonical(case, line),
        Subject::LongExpressions => expressions::tell_whether_read(case, line),
        Subject::Programs => programs::tell_verdict(case, line),
        Subject::Goals => programs::tell_goal_verdict(case, line),
        Subject::Parts => programs::tell_parts(case, line),
        Subject::Places => places::answer(case, line),
        Subject::Trees => programs::tell_canonical(case, line),
        Subject::Builtins => builtins::answer(case, line),
    }
    true
}
