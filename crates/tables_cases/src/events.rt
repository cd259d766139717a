//! Kinds of events in words: `ins`, `bound`, `dom`, `dom_any`, `posted`.

use crate::case::Case;
use crate::rows::named;

/// A kind of event.
#[derive(Clone, Copy)]
pub enum EventKind {
    Ins,
    Bound,
    Dom,
    DomAny,
    Posted,
}

/// Each kind with its word.
const KINDS: [(&str, EventKind); 5] = [
    ("ins", EventKind::Ins),
    ("bound", EventKind::Bound),
    ("dom", EventKind::Dom),
    ("dom_any", EventKind::DomAny),
    ("posted", EventKind::Posted),
];

/// The kind with a word.
fn kind_of(word: &str) -> Option<EventKind> {
    named(&KINDS, word)
}

/// Takes the next word, which is to be a kind of event.
pub fn take_event_kind(case: &Case) -> Option<EventKind> {
    let kind = kind_of(case.take_word());
    if kind.is_none() {
        case.lacks("a kind of event");
    }
    kind
}
