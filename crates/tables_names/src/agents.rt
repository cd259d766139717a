//! Agents. `events_of N bound; OLD; NEW` tells the events of variable N, which is bound now, or `unbound`, and which had the domain OLD
//! and has NEW, or none where `free` stands there. `activations N; agent KIND M ..; event KIND M ..` tells whom events wake, in
//! a store of N variables and of the agents before them, each with its events, and a variable behind each of these.

use pi_agent::{activations, events_of};
use pi_dom::Domain;
use pi_types::{Activation, Event, Events, Ref, StateStore, TreeStore, Watch, Watches};
use tables_cases::{Case, EventKind, spans_of, take_event_kind};

/// The slot that each event's term takes. It isn't told.
const SLOT: u32 = 0;

/// Tells the events of a variable.
pub(crate) fn answer_events(case: &Case) {
    let variable = case.take_number();
    let is_bound = case.skip("bound");
    if !is_bound {
        case.expect("unbound");
    }
    case.take_step_end();
    let old = take_domain(case);
    case.take_step_end();
    let new = take_domain(case);
    let events = events_of(case.alloc, variable, old.as_ref(), new.as_ref(), is_bound);
    if let Some(events) = case.made(events) {
        if events.as_slice().is_empty() {
            case.tell("none");
        }
        for (i, event) in events.as_slice().iter().enumerate() {
            case.tell_between(i, ", ");
            tell_event(case, event);
        }
    }
}

/// Takes the domain of a step, where it has one.
fn take_domain(case: &Case) -> Option<Domain> {
    if case.skip("free") {
        return None;
    }
    let words = case.take_rest();
    spans_of(case, words)
}

/// Tells an event: its kind, its variable, and what it gives.
fn tell_event(case: &Case, event: &Event) {
    match event {
        Event::Ins(n) => tell_of(case, "ins ", *n),
        Event::Bound(n) => tell_of(case, "bound ", *n),
        Event::Excluded(n, value, is_inner) => {
            tell_of(case, "lost ", *n);
            case.tell(if *is_inner { " inner " } else { " end " });
            case.tell_integer(i128::from(*value));
        }
        Event::Posted(n, term) => {
            tell_of(case, "posted ", *n);
            case.tell(" ");
            case.tell_term(term);
        }
    }
}

fn tell_of(case: &Case, kind: &str, variable: u64) {
    case.tell(kind);
    case.tell_variable(variable);
}

/// Tells whom events wake.
pub(crate) fn answer_activations(case: &Case) {
    let store = TreeStore::new(case.alloc);
    if let Some(store) = case.made(store) {
        wake(case, store);
    }
}

/// Tells whom events wake in a store. Its owner is generic, so that no proof goes through the parts of one kind of store where it is
/// dropped.
fn wake<S: StateStore>(case: &Case, mut store: S) {
    for _ in 0..case.take_number() {
        let made = store.new_var();
        case.done(made);
    }
    case.take_step_end();
    let events = take_steps(case, &mut store);
    let woken = activations(case.alloc, &store, &events);
    if let Some(woken) = case.made(woken) {
        if woken.as_slice().is_empty() {
            case.tell("none");
        }
        for (i, activation) in woken.as_slice().iter().enumerate() {
            case.tell_between(i, ", ");
            tell_activation(case, activation);
        }
    }
    drop(store);
}

/// Makes the agents, and takes the events.
fn take_steps<S: StateStore>(case: &Case, store: &mut S) -> Events {
    let mut events = Vec::new(case.alloc);
    for _ in 0..case.steps() {
        if case.skip("agent") {
            add_agent(case, store);
        } else {
            case.expect("event");
            let event = take_event(case);
            case.keep(event, &mut events);
        }
        case.take_step_end();
    }
    Events::from_vec(events)
}

/// Makes an agent, which waits for events.
fn add_agent<S: StateStore>(case: &Case, store: &mut S) {
    let mut watches = Vec::new(case.alloc);
    for _ in 0..case.left() / 2 {
        let watch = take_watch(case, store);
        case.keep(watch, &mut watches);
    }
    let called = store.put_atom("a");
    if let Some(called) = case.made(called) {
        let agent = store.suspend(called, 0, &Watches::from_vec(watches));
        case.done(agent);
    }
}

/// Takes an event that is waited for.
fn take_watch<S: StateStore>(case: &Case, store: &S) -> Option<Watch> {
    let kind = take_event_kind(case);
    let r = take_variable(case, store)?;
    Some(match kind? {
        EventKind::Ins => Watch::Ins(r),
        EventKind::Bound => Watch::Bound(r),
        EventKind::Dom => Watch::Dom(r, SLOT),
        EventKind::DomAny => Watch::DomAny(r, SLOT),
        EventKind::Posted => Watch::Posted(r, SLOT),
    })
}

/// Takes a variable that was made.
fn take_variable<S: StateStore>(case: &Case, store: &S) -> Option<Ref> {
    let n = case.take_number();
    if n >= store.vars() {
        case.lacks("a variable that was made");
        return None;
    }
    Some(store.var_ref(n))
}

/// Takes an event. A lost value counts as one that lay between the ends where the kind is `dom`.
fn take_event(case: &Case) -> Option<Event> {
    let kind = take_event_kind(case);
    let n = case.take_number();
    Some(match kind? {
        EventKind::Ins => Event::Ins(n),
        EventKind::Bound => Event::Bound(n),
        EventKind::Dom => Event::Excluded(n, take_value(case), true),
        EventKind::DomAny => Event::Excluded(n, take_value(case), false),
        EventKind::Posted => Event::Posted(n, case.take_term()?),
    })
}

fn take_value(case: &Case) -> i64 {
    match i64::try_from(case.take_integer()) {
        Ok(value) => value,
        Err(_) => {
            case.lacks("a smaller value");
            0
        }
    }
}

/// Tells an activation: its agent, which of that one's events it is, and what this gives.
fn tell_activation(case: &Case, activation: &Activation) {
    case.tell("agent ");
    case.tell_number(activation.agent);
    case.tell(" by ");
    case.tell_number(activation.watch);
    if let Some(value) = &activation.value {
        case.tell(" with ");
        case.tell_term(value);
    }
}
