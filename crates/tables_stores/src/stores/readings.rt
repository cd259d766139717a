//! Readings of constraints, in the cases of readings: `read GOAL` shows how many new variables the goal posts and its
//! constraints in words, or why it posts nothing.

use crate::bench::{Bench, Reading};
use crate::constraints::tell_constraint;
use crate::stores::showing::show;
use pi_prop::{ConFault, Posting, read_constraint};
use pi_types::StateStore;
use tables_cases::{Case, Problem};

/// Takes a step that reads a goal, and tells whether it is one.
pub fn take_step<S: StateStore>(case: &Case, bench: &mut Bench<S>, name: &str) -> bool {
    let is_reading = matches!(bench.reading, Reading::Goal) && name == "read";
    if is_reading {
        take_reading(case, bench);
    }
    is_reading
}

/// Takes a goal, and shows what it posts.
fn take_reading<S: StateStore>(case: &Case, bench: &mut Bench<S>) {
    let goal = bench.take(case);
    match read_constraint(case.alloc, &bench.store, goal) {
        Ok(posting) => show_posting(case, &posting),
        Err(fault) => show_fault(case, fault),
    }
}

fn show_posting(case: &Case, posting: &Posting) {
    show(case, "");
    case.tell_number(posting.fresh);
    case.tell(" new");
    for constraint in posting.list.as_slice() {
        case.tell(" , ");
        tell_constraint(constraint, case);
    }
}

fn show_fault(case: &Case, fault: ConFault) {
    match fault {
        ConFault::NotLinear(term) => {
            show(case, "not_a_constraint ");
            case.tell_term(&term);
        }
        ConFault::TooManyTerms => show(case, "too_many_terms"),
        ConFault::WideCoefficient => show(case, "wide_coefficient"),
        ConFault::TooLarge => show(case, "too_large"),
        ConFault::Memory => case.fail(Problem::Memory),
    }
}
