//! tables: writes what the cases of files give, which are calls of picatq's libraries.
#![tactic(auto)]

mod whole;

use pi_outside::{Files, RealFiles};
use std::process::ExitCode;
use tables_cases::{Case, Subjects, run};

/// All subjects, with the files of the outside.
#[derive(Drop)]
struct Tables<F> {
    files: F,
}

impl<R: Print + Input + AllocGlobal, F: Files> Subjects<R> for Tables<F> {
    fn answer_text(&mut self, _rt: &R, subject: &str, text: &str, line: &str, case: &Case) -> bool {
        tables_values::answer_text(subject, line, case)
            || whole::answer_text(subject, text, line, case)
    }

    fn answer_words(&mut self, rt: &R, subject: &str, text: &str, case: &Case) -> bool {
        tables_runs::answer_words(subject, text, case)
            || tables_stores::answer_words(subject, text, case)
            || tables_names::answer_words(subject, case)
            || tables_searches::answer_words(subject, case)
            || tables_values::answer_words(subject, case)
            || tables_values::answer_outside(rt, &mut self.files, subject, case)
    }
}

fn main(rt: HostRuntime) -> ExitCode {
    let mut tables = Tables {
        files: RealFiles::new(&rt),
    };
    run(&rt, &mut tables)
}
