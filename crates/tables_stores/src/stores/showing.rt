//! What steps show.

use pi_types::{Cell, Domain, Places, ReadStop, Ref, StateStore, Term};
use std::alloc::AllocError;
use tables_cases::{Case, Problem, tell_domain};

/// Makes a place for one more thing that is shown.
pub fn begin(case: &Case) {
    case.begin(" ; ");
}

/// Shows a word.
pub fn show(case: &Case, word: &str) {
    begin(case);
    case.tell(word);
}

/// Shows whether something holds.
pub fn show_whether(case: &Case, holds: bool) {
    begin(case);
    case.tell_whether(holds);
}

/// Shows a number.
pub fn show_number(case: &Case, number: u64) {
    begin(case);
    case.tell_number(number);
}

/// Shows numbers, where no memory was wanted.
pub fn show_numbers(case: &Case, numbers: Result<Places, AllocError>) {
    if let Some(numbers) = case.made(numbers) {
        show(case, "[");
        for (i, number) in numbers.as_slice().iter().enumerate() {
            case.tell_between(i, " ");
            case.tell_number(*number);
        }
        case.tell("]");
    }
}

/// Shows a domain, or that there is none, where no memory was wanted.
pub fn show_domain(case: &Case, domain: Result<Option<Domain>, AllocError>) {
    match case.made(domain) {
        Some(Some(domain)) => {
            show(case, "in");
            tell_domain(&domain, case);
        }
        _ => show(case, "any"),
    }
}

/// A term of a store as it is written down; None where it is too large.
pub fn read<S: StateStore>(case: &Case, store: &S, r: Ref) -> Option<Term> {
    match store.read_term(case.alloc, r) {
        Ok(term) => return Some(term),
        Err(ReadStop::TooLarge) => {}
        Err(ReadStop::Memory) => case.fail(Problem::Memory),
    }
    None
}

/// Tells a term of a store in words.
pub fn tell_read<S: StateStore>(case: &Case, store: &S, r: Ref) {
    match read(case, store, r) {
        Some(term) => case.tell_term(&term),
        None => case.tell("too large"),
    }
}

/// Tells what a term of a store is at its root.
pub fn tell_look<S: StateStore>(case: &Case, store: &S, r: Ref) {
    match store.look(r) {
        Cell::Var(n) => case.tell_variable(n),
        Cell::Int(n) => case.tell_integer(n),
        Cell::Atom(name) => case.tell_name(store.name(name)),
        Cell::Comp(name, count) => {
            case.tell_name(store.name(name));
            case.tell("/");
            case.tell_number(count);
        }
    }
}

/// Tells the domain of a variable, where it has one.
pub fn tell_confined<S: StateStore>(case: &Case, store: &S, variable: Ref) {
    let domain = store.domain(case.alloc, variable);
    if let Some(Some(domain)) = case.made(domain) {
        case.tell(" in");
        tell_domain(&domain, case);
    }
}

/// Shows the values of the variables, and the domains of those that have one.
pub fn show_values<S: StateStore>(case: &Case, store: &S) {
    begin(case);
    for n in 0..store.vars() {
        if n > 0 {
            case.tell(", ");
        }
        let variable = store.var_ref(n);
        tell_read(case, store, variable);
        tell_confined(case, store, variable);
    }
}
