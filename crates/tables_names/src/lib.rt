//! Cases of calls that no other cases make, each in the crate where users look for it: labelling, agents, and the raw store.
#![tactic(auto)]

mod agents;
mod labels;
mod raw;

use tables_cases::{Case, named};

/// A call.
#[derive(Clone, Copy)]
enum Call {
    ReadOptions,
    Pick,
    Choices,
    EventsOf,
    Activations,
    RawStore,
}

/// Each call with its name.
const CALLS: [(&str, Call); 6] = [
    ("read_options", Call::ReadOptions),
    ("pick", Call::Pick),
    ("choices", Call::Choices),
    ("events_of", Call::EventsOf),
    ("activations", Call::Activations),
    ("raw_store", Call::RawStore),
];

/// The call with a name.
fn call_of(name: &str) -> Option<Call> {
    named(&CALLS, name)
}

/// Answers a case of a call, whose name stands in front, and tells whether the subject is these calls.
pub fn answer_words(subject: &str, case: &Case) -> bool {
    let are_names = subject == "names";
    if are_names {
        answer(case);
    }
    are_names
}

/// Tells what a call gives.
fn answer(case: &Case) {
    match call_of(case.take_word()) {
        Some(Call::ReadOptions) => labels::answer_options(case),
        Some(Call::Pick) => labels::answer_pick(case),
        Some(Call::Choices) => labels::answer_choices(case),
        Some(Call::EventsOf) => agents::answer_events(case),
        Some(Call::Activations) => agents::answer_activations(case),
        Some(Call::RawStore) => raw::answer(case),
        None => case.lacks("the name of a call in front"),
    }
}
