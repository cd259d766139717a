//! Steps that make terms.

use crate::bench::Bench;
use crate::stores::showing::{read, show, show_whether};
use pi_types::{ReadStop, StateStore, Term};
use pi_unify::{copy_term, place, unify};
use tables_cases::{Case, Problem, named};

/// What a step does.
#[derive(Clone, Copy)]
enum Step {
    New,
    Let,
    Arg,
    Place,
    Again,
    Copy,
    Unify,
}

/// Each step with its name.
const STEPS: [(&str, Step); 7] = [
    ("new", Step::New),
    ("let", Step::Let),
    ("arg", Step::Arg),
    ("place", Step::Place),
    ("again", Step::Again),
    ("copy", Step::Copy),
    ("unify", Step::Unify),
];

/// The step with a name.
fn step_of(name: &str) -> Option<Step> {
    named(&STEPS, name)
}

/// Takes a step that makes terms, and tells whether it is one.
pub fn take_step<S: StateStore>(case: &Case, bench: &mut Bench<S>, name: &str) -> bool {
    let Some(step) = step_of(name) else {
        return false;
    };
    match step {
        Step::New => new_variables(case, &mut bench.store),
        Step::Let => {
            let made = bench.take(case);
            bench.keep(case, made);
        }
        Step::Arg => {
            let whole = bench.take(case);
            let made = bench.store.arg(whole, case.take_number());
            bench.keep(case, made);
        }
        Step::Place => place_taken(case, bench),
        Step::Again => place_again(case, bench),
        Step::Copy => copy(case, bench),
        Step::Unify => unify_two(case, bench),
    }
    true
}

fn new_variables<S: StateStore>(case: &Case, store: &mut S) {
    for _ in 0..case.take_number() {
        let made = store.new_var();
        case.done(made);
    }
}

/// Places a term.
fn place_taken<S: StateStore>(case: &Case, bench: &mut Bench<S>) {
    if let Some(term) = case.take_term() {
        place_term(case, bench, &term);
    }
}

fn place_term<S: StateStore>(case: &Case, bench: &mut Bench<S>, term: &Term) {
    let made = place(case.alloc, &mut bench.store, term);
    case.keep_made(made, &mut bench.terms);
}

/// Places a term of the store once more, as it reads.
fn place_again<S: StateStore>(case: &Case, bench: &mut Bench<S>) {
    let r = bench.take(case);
    match read(case, &bench.store, r) {
        Some(term) => place_term(case, bench, &term),
        None => case.lacks("a smaller term"),
    }
}

/// Copies a term, where that isn't too large.
fn copy<S: StateStore>(case: &Case, bench: &mut Bench<S>) {
    let r = bench.take(case);
    match copy_term(case.alloc, &mut bench.store, r) {
        Ok(made) => {
            bench.keep(case, made);
            show(case, "copied");
        }
        Err(ReadStop::TooLarge) => show(case, "too large"),
        Err(ReadStop::Memory) => case.fail(Problem::Memory),
    }
}

fn unify_two<S: StateStore>(case: &Case, bench: &mut Bench<S>) {
    let a = bench.take(case);
    let b = bench.take(case);
    let is_equal = unify(case.alloc, &mut bench.store, a, b);
    if let Some(is_equal) = case.made(is_equal) {
        show_whether(case, is_equal);
    }
}
