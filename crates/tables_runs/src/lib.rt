//! Cases of goals and programs of the core language: what is lowered to them, and their runs.
#![tactic(auto)]

mod expressions;
mod goals;
mod lowering;
mod programs;
mod runs;

use tables_cases::Case;

/// Answers a case of goals or programs, in a file with this text, and tells whether the subject is one of such cases.
pub fn answer_words(subject: &str, text: &str, case: &Case) -> bool {
    match subject {
        "core_goals" => goals::answer(case),
        "lowering" => lowering::answer(case),
        "runs" => runs::answer(case, text),
        _ => return false,
    }
    true
}
