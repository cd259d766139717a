//! Domains that an answer tells. A line `& STEPS` of the file is taken on a new store as the steps of stores are; its slots are
//! those of a query. A case `names 0 2` tells the domains of the answer in which these slots are named.

use crate::bench::{Bench, Reading};
use crate::kinds::raw_store;
use crate::stores::take_steps;
use pi_engine_arenas::Run;
use pi_engine_steps::answer as answer_of;
use pi_types::{NameSlot, NameSlots, StoredDomains, TreeStore};
use tables_cases::{Case, Given, take_given, tell_domains};

/// Tells the domains of an answer over a `TreeStore`, and where they are others over a `RawStore`, those too.
pub fn answer(case: &Case, text: &str) {
    case.expect("names");
    let names = take_names(case);
    let raw = case.again();
    answer_on(&raw, text, raw_store(case.alloc), names.as_slice());
    let store = TreeStore::new(case.alloc);
    if let Some(store) = case.made(store) {
        answer_on(case, text, store, names.as_slice());
    }
    case.tell_raw(&raw);
}

/// Tells the domains of an answer on any store.
fn answer_on<S: StoredDomains>(case: &Case, text: &str, store: S, names: &[NameSlot]) {
    let mut bench = Bench::new(case.alloc, store, Reading::Term);
    take_given(case, text, &mut bench);
    tell_answer(case, bench, names);
}

/// Takes the slots that are named, each a name of itself.
fn take_names(case: &Case) -> NameSlots {
    let mut names = NameSlots::new(case.alloc);
    for word in case.take_rest() {
        let added = names.push(NameSlot {
            name: case.text(word.as_str()),
            slot: case.slot_of(word.as_str()),
        });
        case.done(added);
    }
    names
}

/// The steps that a file gives for its cases, whose showing isn't told.
impl<S: StoredDomains> Given for Bench<S> {
    fn take_line(&mut self, line: &Case) {
        take_steps(line, self);
    }
}

/// Tells the domains of the answer of a run with a bench's store and slots.
fn tell_answer<S: StoredDomains>(case: &Case, bench: Bench<S>, names: &[NameSlot]) {
    let Bench { store, slots, .. } = bench;
    let mut run = Run::new(case.alloc, store);
    let pushed = run.arenas.blocks.push_slots(slots.as_slice());
    case.done(pushed);
    let answered = answer_of(&mut run, names);
    drop(run);
    match case.made(answered) {
        Some(Ok(told)) => {
            case.tell("answer");
            tell_domains(told.domains.as_slice(), case);
        }
        _ => case.lacks("smaller values"),
    }
}
