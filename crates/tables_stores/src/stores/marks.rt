//! Steps on marks.

use crate::bench::Bench;
use crate::stores::showing::{show_domain, show_numbers};
use pi_types::StateStore;
use tables_cases::{Case, named};

/// What a step does.
#[derive(Clone, Copy)]
enum Step {
    Mark,
    Undo,
    Changed,
    Before,
}

/// Each step with its name.
const STEPS: [(&str, Step); 4] = [
    ("mark", Step::Mark),
    ("undo", Step::Undo),
    ("changed", Step::Changed),
    ("before", Step::Before),
];

/// The step with a name.
fn step_of(name: &str) -> Option<Step> {
    named(&STEPS, name)
}

/// Takes a step on marks, and tells whether it is one.
pub fn take_step<S: StateStore>(case: &Case, bench: &mut Bench<S>, name: &str) -> bool {
    let Some(step) = step_of(name) else {
        return false;
    };
    match step {
        Step::Mark => {
            let mark = bench.store.mark();
            case.keep_made(mark, &mut bench.marks);
        }
        _ => go_to_mark(case, bench, step),
    }
    true
}

/// Comes back to a mark, or shows what has changed since.
fn go_to_mark<S: StateStore>(case: &Case, bench: &mut Bench<S>, step: Step) {
    let number = case.take_count();
    let Some(mark) = bench.marks.get(number) else {
        return case.lacks("a mark");
    };
    match step {
        Step::Undo => bench.store.undo(mark),
        Step::Changed => {
            let found = bench.store.changed_since(case.alloc, mark);
            show_numbers(case, found);
        }
        _ => {
            let found = bench.store.domain_at(case.alloc, mark, case.take_number());
            show_domain(case, found);
        }
    }
}
