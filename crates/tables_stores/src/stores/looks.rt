//! Steps that look at terms.

use crate::bench::Bench;
use crate::stores::showing::{begin, show_number, show_values, show_whether, tell_look, tell_read};
use pi_types::{Ref, StateStore};
use pi_unify::compare;
use std::cmp::Ordering;
use tables_cases::{Case, named};

/// What a step does.
#[derive(Clone, Copy)]
enum Step {
    Variables,
    Values,
    Order,
    Same,
    Compare,
    Read,
    Look,
    Ground,
    Leads,
}

/// Each step with its name.
const STEPS: [(&str, Step); 9] = [
    ("vars", Step::Variables),
    ("values", Step::Values),
    ("order", Step::Order),
    ("same", Step::Same),
    ("compare", Step::Compare),
    ("read", Step::Read),
    ("look", Step::Look),
    ("ground", Step::Ground),
    ("leads", Step::Leads),
];

/// The step with a name.
fn step_of(name: &str) -> Option<Step> {
    named(&STEPS, name)
}

/// Takes a step that looks at terms, and tells whether it is one.
pub fn take_step<S: StateStore>(case: &Case, bench: &mut Bench<S>, name: &str) -> bool {
    let Some(step) = step_of(name) else {
        return false;
    };
    match step {
        Step::Variables => show_number(case, bench.store.vars()),
        Step::Values => show_values(case, &bench.store),
        Step::Order => show_orders(case, bench),
        Step::Same => {
            let a = bench.take(case);
            let b = bench.take(case);
            show_whether(case, bench.store.look(a) == bench.store.look(b));
        }
        Step::Compare => {
            let a = bench.take(case);
            let b = bench.take(case);
            begin(case);
            tell_order(case, &bench.store, a, b);
        }
        Step::Read => {
            let r = bench.take(case);
            begin(case);
            tell_read(case, &bench.store, r);
        }
        Step::Look => {
            let r = bench.take(case);
            begin(case);
            tell_look(case, &bench.store, r);
        }
        Step::Ground => {
            let r = bench.take(case);
            show_whether(case, bench.store.is_ground(r));
        }
        Step::Leads => {
            let r = bench.take(case);
            let n = case.take_number();
            show_whether(case, bench.store.leads_to(r, n));
        }
    }
    true
}

/// Shows how each of some terms stands to each of them.
fn show_orders<S: StateStore>(case: &Case, bench: &mut Bench<S>) {
    let mut terms = Vec::new(case.alloc);
    for _ in 0..case.left() {
        if case.left() > 0 {
            let taken = bench.take(case);
            case.keep(Some(taken), &mut terms);
        }
    }
    begin(case);
    for (i, a) in terms.iter().enumerate() {
        case.tell_between(i, " ");
        for b in &terms {
            tell_order(case, &bench.store, *a, *b);
        }
    }
}

fn tell_order<S: StateStore>(case: &Case, store: &S, a: Ref, b: Ref) {
    let ordering = compare(case.alloc, store, a, b);
    match case.made(ordering) {
        Some(Ordering::Less) => case.tell("<"),
        Some(Ordering::Equal) => case.tell("="),
        Some(Ordering::Greater) => case.tell(">"),
        None => {}
    }
}
