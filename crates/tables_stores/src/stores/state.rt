//! Steps on bindings, domains and constraints.

use crate::bench::Bench;
use crate::constraints::tell_constraint;
use crate::stores::showing::{begin, show_domain, show_number, show_numbers};
use pi_types::laws::stores::changes_are_undone;
use pi_types::{Domain, StateStore};
use tables_cases::{Case, named, spans_of, take_constraint};

/// What a step does.
#[derive(Clone, Copy)]
enum Step {
    Bind,
    Confine,
    Try,
    Domain,
    Post,
    Constraints,
    Constraint,
    Posted,
}

/// Each step with its name.
const STEPS: [(&str, Step); 8] = [
    ("bind", Step::Bind),
    ("confine", Step::Confine),
    ("try", Step::Try),
    ("domain", Step::Domain),
    ("post", Step::Post),
    ("constraints", Step::Constraints),
    ("constraint", Step::Constraint),
    ("posted", Step::Posted),
];

/// The step with a name.
fn step_of(name: &str) -> Option<Step> {
    named(&STEPS, name)
}

/// Takes a step on the state, and tells whether it is one.
pub fn take_step<S: StateStore>(case: &Case, bench: &mut Bench<S>, name: &str) -> bool {
    let Some(step) = step_of(name) else {
        return false;
    };
    match step {
        Step::Bind => bind(case, bench),
        Step::Confine => confine(case, bench),
        Step::Try => try_changes(case, &mut bench.store),
        Step::Domain => {
            let variable = bench.take(case);
            let domain = bench.store.domain(case.alloc, variable);
            show_domain(case, domain);
        }
        Step::Post => post(case, &mut bench.store),
        Step::Constraints => show_number(case, bench.store.constraints()),
        Step::Constraint => show_constraint(case, &bench.store),
        Step::Posted => {
            let found = bench.store.posted_on(case.alloc, case.take_number());
            show_numbers(case, found);
        }
    }
    true
}

fn bind<S: StateStore>(case: &Case, bench: &mut Bench<S>) {
    let variable = bench.take(case);
    let term = bench.take(case);
    let bound = bench.store.bind(variable, term);
    case.done(bound);
}

fn confine<S: StateStore>(case: &Case, bench: &mut Bench<S>) {
    let variable = bench.take(case);
    if let Some(domain) = take_domain(case) {
        let confined = bench.store.set_domain(variable, &domain);
        case.done(confined);
    }
}

fn try_changes<S: StateStore>(case: &Case, store: &mut S) {
    if let Some(domain) = take_domain(case) {
        let tried = changes_are_undone(store, &domain);
        case.done(tried);
    }
}

/// Takes the domain that the words of a step are.
fn take_domain(case: &Case) -> Option<Domain> {
    spans_of(case, case.take_rest())
}

fn post<S: StateStore>(case: &Case, store: &mut S) {
    match take_constraint(case, case.take_word()) {
        Some(constraint) => {
            let posted = store.post(&constraint);
            case.done(posted);
            drop(constraint);
        }
        None => case.lacks("a kind of constraint"),
    }
}

/// Shows a constraint that was posted.
fn show_constraint<S: StateStore>(case: &Case, store: &S) {
    let number = case.take_number();
    if number >= store.constraints() {
        return case.lacks("a constraint that was posted");
    }
    let constraint = store.constraint(case.alloc, number);
    if let Some(constraint) = case.made(constraint) {
        begin(case);
        tell_constraint(&constraint, case);
        drop(constraint);
    }
}
