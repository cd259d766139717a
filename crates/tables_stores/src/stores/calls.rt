//! Calls of built-ins: `function CALL` shows a value, `predicate CALL` shows `yes`, `no` or `written` with a text, and both
//! `raised` with a term.

use crate::bench::Bench;
use crate::stores::showing::{show, tell_read};
use pi_lib::{LibStep, LibValue, run_function, run_predicate};
use pi_lib_builtin::function_named;
use pi_types::{Cell, Ref, StateStore, Term, Text};
use tables_cases::{Case, Problem};

/// Takes a step that calls a built-in, and tells whether it is one.
pub fn take_step<S: StateStore>(case: &Case, bench: &mut Bench<S>, name: &str) -> bool {
    match name {
        "function" => take_function(case, bench),
        "predicate" => take_predicate(case, bench),
        _ => return false,
    }
    true
}

/// Takes a call of a function, and shows its value.
fn take_function<S: StateStore>(case: &Case, bench: &mut Bench<S>) {
    let call = bench.take(case);
    let args = arguments(case, &bench.store, call);
    let name = name_of(case, &bench.store, call);
    if function_named(name.as_str(), args.len()).is_none() {
        return case.lacks("a call of a function");
    }
    let value = run_function(case.alloc, &mut bench.store, name.as_str(), &args);
    match value {
        LibValue::Value(made) => {
            show(case, "");
            tell_read(case, &bench.store, made);
        }
        LibValue::Raised(ball) => show_ball(case, &ball),
        LibValue::Memory => case.fail(Problem::Memory),
    }
}

/// Takes a call of a predicate, and shows what it comes to.
fn take_predicate<S: StateStore>(case: &Case, bench: &mut Bench<S>) {
    let call = bench.take(case);
    match run_predicate(case.alloc, &mut bench.store, call) {
        LibStep::Yes => show(case, "yes"),
        LibStep::No => show(case, "no"),
        LibStep::Out(text) => {
            show(case, "written ");
            case.tell_name(text.as_str());
        }
        LibStep::Raised(ball) => show_ball(case, &ball),
        LibStep::Memory => case.fail(Problem::Memory),
    }
}

fn show_ball(case: &Case, ball: &Term) {
    show(case, "raised ");
    case.tell_term(ball);
}

/// The name of a call, which is empty where it has no arguments.
fn name_of<S: StateStore>(case: &Case, store: &S, call: Ref) -> Text {
    match store.look(call) {
        Cell::Comp(name, _) => case.text(store.name(name)),
        _ => case.text(""),
    }
}

fn arguments<S: StateStore>(case: &Case, store: &S, call: Ref) -> Vec<Ref> {
    let mut args = Vec::new(case.alloc);
    if let Cell::Comp(_, count) = store.look(call) {
        for i in 0..count {
            case.keep(Some(store.arg(call, i)), &mut args);
        }
    }
    args
}
