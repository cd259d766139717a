//! Cases of runs of the whole program, over files, input and output in memory, and of the top crate's other calls.
mod calls;
mod command;
mod runs;
mod sessions;

use crate::whole::runs::Failing;
use tables_cases::Case;

/// Answers a case of runs in a file with this text, and tells whether the subject is one of such cases.
pub fn answer_text(subject: &str, text: &str, line: &str, case: &Case) -> bool {
    match subject {
        "whole" => runs::answer(case, text, line),
        "failing_reads" => runs::answer_failing(case, text, line, Failing::Read),
        "failing_writes" => runs::answer_failing(case, text, line, Failing::Write),
        "top" => calls::answer(case, line),
        "sessions" => sessions::answer(case, text, line),
        _ => return false,
    }
    true
}
