//! Steps on agents and activations, and the step that shows the whole state.

use crate::bench::Bench;
use crate::stores::showing::{begin, show, show_number, tell_confined, tell_look, tell_read};
use pi_types::{Activation, StateStore, Watch, Watches};
use tables_cases::{Case, EventKind, named, take_event_kind};

/// What a step does.
#[derive(Clone, Copy)]
enum Step {
    Suspend,
    Agents,
    Agent,
    Watches,
    Retire,
    Wait,
    Take,
    Show,
}

/// Each step with its name.
const STEPS: [(&str, Step); 8] = [
    ("suspend", Step::Suspend),
    ("agents", Step::Agents),
    ("agent", Step::Agent),
    ("watches", Step::Watches),
    ("retire", Step::Retire),
    ("wait", Step::Wait),
    ("take", Step::Take),
    ("show", Step::Show),
];

/// The step with a name.
fn step_of(name: &str) -> Option<Step> {
    named(&STEPS, name)
}

/// Takes a step on agents or activations, and tells whether it is one.
pub fn take_step<S: StateStore>(case: &Case, bench: &mut Bench<S>, name: &str) -> bool {
    let Some(step) = step_of(name) else {
        return false;
    };
    match step {
        Step::Suspend => suspend(case, bench),
        Step::Agents => show_number(case, bench.store.agents()),
        Step::Agent => show_agent(case, &bench.store),
        Step::Watches => show_watches(case, &bench.store),
        Step::Retire => {
            let retired = bench.store.retire(case.take_number());
            case.done(retired);
        }
        Step::Wait => wait(case, &mut bench.store),
        Step::Take => take_first(case, &mut bench.store),
        Step::Show => show_state(case, &mut bench.store),
    }
    true
}

/// Makes a call an agent, which waits for events.
fn suspend<S: StateStore>(case: &Case, bench: &mut Bench<S>) {
    let rule = case.take_number();
    let call = bench.take(case);
    let mut watches = Watches::new(case.alloc);
    for _ in 0..case.left() {
        if case.left() > 0 {
            let watch = take_watch(case, bench);
            let added = watches.push(watch);
            case.done(added);
        }
    }
    let agent = bench.store.suspend(call, rule, &watches);
    if let Some(agent) = case.made(agent) {
        show_number(case, agent);
    }
}

/// Takes the words of an event: a kind, a term, and for some kinds a slot.
fn take_watch<S: StateStore>(case: &Case, bench: &mut Bench<S>) -> Watch {
    let kind = take_event_kind(case);
    let r = bench.take(case);
    match kind {
        Some(EventKind::Ins) => Watch::Ins(r),
        Some(EventKind::Bound) => Watch::Bound(r),
        Some(EventKind::Dom) => Watch::Dom(r, case.take_slot()),
        Some(EventKind::DomAny) => Watch::DomAny(r, case.take_slot()),
        Some(EventKind::Posted) => Watch::Posted(r, case.take_slot()),
        None => Watch::Ins(r),
    }
}

/// Takes the words of an activation, which is to wait: an agent, the number of an event, and maybe a value.
fn wait<S: StateStore>(case: &Case, store: &mut S) {
    let agent = case.take_number();
    let watch = case.take_number();
    let value = if case.left() > 0 {
        case.take_term()
    } else {
        None
    };
    let waits = store.wait(&Activation {
        agent,
        watch,
        value,
    });
    case.done(waits);
}

/// Takes the first activation that waits, and shows another one that says the same.
fn take_first<S: StateStore>(case: &Case, store: &mut S) {
    let taken = store.take_waiting();
    match case.made(taken) {
        Some(Some(activation)) => {
            let copy = activation.copy(case.alloc);
            if let Some(copy) = case.made(copy) {
                begin(case);
                tell_activation(&copy, case);
            }
        }
        _ => show(case, "none"),
    }
}

fn tell_activation(activation: &Activation, case: &Case) {
    case.tell_number(activation.agent);
    case.tell(" ");
    case.tell_number(activation.watch);
    if let Some(value) = &activation.value {
        case.tell(" ");
        case.tell_term(value);
    }
}

/// Shows the rule and the call of an agent that is alive.
fn show_agent<S: StateStore>(case: &Case, store: &S) {
    begin(case);
    match store.agent(case.take_number()) {
        Some(agent) => {
            case.tell("rule ");
            case.tell_number(agent.rule);
            case.tell(" of ");
            tell_read(case, store, agent.call);
        }
        None => case.tell("ended"),
    }
}

/// Shows the events that an agent waits for.
fn show_watches<S: StateStore>(case: &Case, store: &S) {
    begin(case);
    let watches = store.watches(case.alloc, case.take_number());
    if let Some(watches) = case.made(watches) {
        for (i, watch) in watches.as_slice().iter().enumerate() {
            case.tell_between(i, ", ");
            tell_watch(case, store, *watch);
        }
    }
}

/// Tells an event: its kind, its term, and for some kinds the slot.
fn tell_watch<S: StateStore>(case: &Case, store: &S, watch: Watch) {
    let (kind, r, slot) = match watch {
        Watch::Ins(r) => ("ins ", r, None),
        Watch::Bound(r) => ("bound ", r, None),
        Watch::Dom(r, slot) => ("dom ", r, Some(slot)),
        Watch::DomAny(r, slot) => ("dom_any ", r, Some(slot)),
        Watch::Posted(r, slot) => ("posted ", r, Some(slot)),
    };
    case.tell(kind);
    tell_read(case, store, r);
    if let Some(slot) = slot {
        case.tell(" ");
        case.tell_number(u64::from(slot));
    }
}

/// Shows each variable with its domain, how many constraints there are, the rules of the agents, and what waits.
fn show_state<S: StateStore>(case: &Case, store: &mut S) {
    begin(case);
    tell_variables(case, store);
    case.tell(" | ");
    case.tell_number(store.constraints());
    case.tell(" posted | rules");
    tell_rules(case, store);
    case.tell(" | waiting");
    tell_waiting(case, store);
}

fn tell_variables<S: StateStore>(case: &Case, store: &S) {
    for n in 0..store.vars() {
        if n > 0 {
            case.tell(", ");
        }
        let variable = store.var_ref(n);
        tell_look(case, store, variable);
        tell_confined(case, store, variable);
    }
}

fn tell_rules<S: StateStore>(case: &Case, store: &S) {
    for n in 0..store.agents() {
        case.tell(" ");
        match store.agent(n) {
            Some(agent) => case.tell_number(agent.rule),
            None => case.tell("ended"),
        }
    }
}

/// Tells the activations that wait, which are taken and come back.
fn tell_waiting<S: StateStore>(case: &Case, store: &mut S) {
    let mark = store.mark();
    let Some(mark) = case.made(mark) else {
        return;
    };
    for _ in 0..u64::MAX {
        let taken = store.take_waiting();
        let Some(Some(activation)) = case.made(taken) else {
            break;
        };
        case.tell(" (");
        tell_activation(&activation, case);
        case.tell(")");
    }
    store.undo(&mark);
}
