//! Steps on heads: `slots` gives what slots hold, `-` for nothing, and `match PATTERN : TERM` asks for a match.

use crate::bench::{Bench, EMPTY};
use crate::stores::showing::{show, tell_read};
use pi_types::{Pattern, Ref, StateStore};
use pi_unify::{Slots, match_head};
use tables_cases::{Case, patterns_of};

/// How many slots a match has.
const SLOTS: usize = 2;

/// Takes a step on heads, and tells whether it is one.
pub fn take_step<S: StateStore>(case: &Case, bench: &mut Bench<S>, name: &str) -> bool {
    match name {
        "slots" => bench.take_slots(case),
        "match" => take_match(case, bench),
        _ => return false,
    }
    true
}

/// Takes a pattern and a term, and shows whether they match.
fn take_match<S: StateStore>(case: &Case, bench: &mut Bench<S>) {
    let words = case.take_until(":");
    let patterns = patterns_of(case, words);
    let r = bench.take(case);
    match patterns.first() {
        Some(pattern) => show_match(case, bench, pattern, r),
        None => case.lacks("a pattern"),
    }
}

/// Shows whether a pattern matches a term, and what the slots hold then.
fn show_match<S: StateStore>(case: &Case, bench: &mut Bench<S>, pattern: &Pattern, r: Ref) {
    let mut slots: Slots = Vec::new(case.alloc);
    for i in 0..SLOTS {
        case.keep(
            Some(bench.slots.get(i).copied().unwrap_or(None)),
            &mut slots,
        );
    }
    let matched = match_head(case.alloc, &mut bench.store, pattern, r, &mut slots);
    if case.made(matched) == Some(true) {
        show(case, "yes");
        tell_slots(case, &bench.store, slots.as_slice());
    } else {
        show(case, "no");
    }
}

/// Tells what slots hold.
fn tell_slots<S: StateStore>(case: &Case, store: &S, slots: &[Option<Ref>]) {
    for slot in slots {
        case.tell(", ");
        match *slot {
            Some(held) => tell_read(case, store, held),
            None => case.tell(EMPTY),
        }
    }
}
