//! Steps that are taken on a new store one after another, and what each shows.
//!
//! The steps are generic over the store, so that one table can be asked of several.

mod agents;
mod calls;
mod looks;
mod marks;
mod matches;
mod propagations;
mod readings;
mod showing;
mod state;
mod terms;

use crate::bench::{Bench, Reading};
use crate::kinds::raw_store;
use pi_types::{StoredDomains, TreeStore};
use tables_cases::Case;

/// Tells what the steps of a case show, taken on a `TreeStore`, and where the same steps on a `RawStore` show something else, that too.
pub fn answer(case: &Case) {
    let raw = case.again();
    take_all(&raw, raw_store(case.alloc), Reading::Term);
    answer_copying(case, Reading::Term);
    case.tell_raw(&raw);
}

/// The same on a `TreeStore` alone: terms of the most cells that are copied take their time once.
pub fn answer_copying(case: &Case, reading: Reading) {
    let store = TreeStore::new(case.alloc);
    if let Some(store) = case.made(store) {
        take_all(case, store, reading);
    }
}

/// The same on any store: its owner is generic, so that no proof goes through the parts of one kind of store where it is dropped.
fn take_all<S: StoredDomains>(case: &Case, store: S, reading: Reading) {
    let mut bench = Bench::new(case.alloc, store, reading);
    take_steps(case, &mut bench);
    drop(bench);
}

/// Tells what steps show that are taken on a store.
pub fn take_steps<S: StoredDomains>(case: &Case, bench: &mut Bench<S>) {
    for _ in 0..case.steps() {
        let name = case.take_word();
        if !take_step(case, bench, name) {
            case.lacks("a known step");
        }
        case.take_step_end();
    }
}

/// Takes one step, which has this name, and tells whether there is one.
fn take_step<S: StoredDomains>(case: &Case, bench: &mut Bench<S>, name: &str) -> bool {
    readings::take_step(case, bench, name)
        || terms::take_step(case, bench, name)
        || looks::take_step(case, bench, name)
        || matches::take_step(case, bench, name)
        || state::take_step(case, bench, name)
        || marks::take_step(case, bench, name)
        || agents::take_step(case, bench, name)
        || calls::take_step(case, bench, name)
        || propagations::take_step(case, bench, name)
}
