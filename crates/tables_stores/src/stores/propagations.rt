//! Propagations: `propagate LIMIT` runs all constraints that were posted, and `from LIMIT NUMBER ..` those with these numbers,
//! with no more than so many runs. Each shows how it ends.

use crate::bench::Bench;
use crate::stores::showing::show;
use pi_queue::{PropStop, propagate, propagate_from};
use pi_types::{Places, StoredDomains, Work};
use tables_cases::{Case, Problem};

/// Takes a step that propagates, and tells whether it is one.
pub fn take_step<S: StoredDomains>(case: &Case, bench: &mut Bench<S>, name: &str) -> bool {
    match name {
        "propagate" => propagate_all(case, bench),
        "from" => propagate_some(case, bench),
        _ => return false,
    }
    true
}

/// No work so far.
fn no_work() -> Work {
    Work {
        goals: 0,
        runs: 0,
        expansions: 0,
    }
}

fn propagate_all<S: StoredDomains>(case: &Case, bench: &mut Bench<S>) {
    let limit = case.take_number();
    let mut work = no_work();
    let ends = propagate(case.alloc, &mut bench.store, &mut work, limit);
    show_end(case, ends);
}

fn propagate_some<S: StoredDomains>(case: &Case, bench: &mut Bench<S>) {
    let limit = case.take_number();
    let due = take_places(case);
    let mut work = no_work();
    let ends = propagate_from(case.alloc, &mut bench.store, &due, &mut work, limit);
    show_end(case, ends);
}

/// Takes the numbers of constraints.
fn take_places(case: &Case) -> Places {
    let mut places = Places::new(case.alloc);
    for _ in 0..case.left() {
        if case.left() > 0 {
            let added = places.push(case.take_number());
            case.done(added);
        }
    }
    places
}

fn show_end(case: &Case, ends: Result<bool, PropStop>) {
    match ends {
        Ok(true) => show(case, "stable"),
        Ok(false) => show(case, "empty"),
        Err(PropStop::WorkSpent) => show(case, "spent"),
        Err(PropStop::Memory) => case.fail(Problem::Memory),
    }
}
