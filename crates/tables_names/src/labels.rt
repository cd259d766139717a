//! Labelling. `read_options TERM` tells the options that a term gives, or why it gives none; `pick WORD; DOMAIN; ..` the place that is
//! labelled next by this word; `choices WORD; DOMAIN` the alternatives of a domain by this word, one after the other.

use pi_dom::{Domain, Domains};
use pi_label::{
    Choice, Objective, OptFault, Options, ValueWord, VariableWord, choices, pick, read_options,
};
use pi_types::{Ref, StateStore, TreeStore};
use pi_unify::place;
use tables_cases::{Case, Problem, named, spans_of};

/// How many alternatives are told at most.
const MOST: usize = 1_000;

/// Each word for what is picked.
const VARIABLE_WORDS: [(&str, VariableWord); 3] = [
    ("forward", VariableWord::Forward),
    ("backward", VariableWord::Backward),
    ("ff", VariableWord::Ff),
];

/// Each word for the alternatives.
const VALUE_WORDS: [(&str, ValueWord); 4] = [
    ("up", ValueWord::Up),
    ("down", ValueWord::Down),
    ("split", ValueWord::Split),
    ("reverse_split", ValueWord::ReverseSplit),
];

/// What is picked by a word.
fn variable_word(word: &str) -> Option<VariableWord> {
    named(&VARIABLE_WORDS, word)
}

/// The alternatives by a word.
fn value_word(word: &str) -> Option<ValueWord> {
    named(&VALUE_WORDS, word)
}

/// Tells the options that a term gives, with what is chosen where it says nothing.
pub(crate) fn answer_options(case: &Case) {
    let store = TreeStore::new(case.alloc);
    if let Some(store) = case.made(store) {
        take_options(case, store);
    }
}

/// Takes a term into a store, and tells what is read of it. The store's owner is generic, so that no proof goes through the parts of one
/// kind of store where it is dropped.
fn take_options<S: StateStore>(case: &Case, mut store: S) {
    if let Some(options) = take_placed(case, &mut store) {
        tell_options(case, &store, options);
    }
    drop(store);
}

/// Takes a term and puts it into a store.
fn take_placed<S: StateStore>(case: &Case, store: &mut S) -> Option<Ref> {
    let term = case.take_term()?;
    let placed = place(case.alloc, store, &term);
    case.made(placed)
}

fn tell_options<S: StateStore>(case: &Case, store: &S, term: Ref) {
    match read_options(case.alloc, store, term) {
        Ok(options) => {
            tell_words(case, &options);
            tell_objective(case, store, options.objective);
        }
        Err(OptFault::BadOption(wrong)) => {
            case.tell("bad option ");
            tell_term(case, store, wrong);
        }
        Err(OptFault::TooLarge) => case.tell("too large"),
        Err(OptFault::Memory) => case.fail(Problem::Memory),
    }
}

/// Tells which variable is picked, and which alternatives it has.
fn tell_words(case: &Case, options: &Options) {
    case.tell(match options.variable {
        VariableWord::Forward => "forward ",
        VariableWord::Backward => "backward ",
        VariableWord::Ff => "ff ",
    });
    case.tell(match options.value {
        ValueWord::Up => "up",
        ValueWord::Down => "down",
        ValueWord::Split => "split",
        ValueWord::ReverseSplit => "reverse_split",
    });
}

fn tell_objective<S: StateStore>(case: &Case, store: &S, objective: Option<Objective>) {
    if let Some(objective) = objective {
        case.tell(if objective.greatest { " max " } else { " min " });
        tell_term(case, store, objective.expression);
    }
}

fn tell_term<S: StateStore>(case: &Case, store: &S, r: Ref) {
    let term = store.read_term(case.alloc, r);
    if let Some(term) = case.made(term) {
        case.tell_term(&term);
    }
}

/// Tells the place that is labelled next.
pub(crate) fn answer_pick(case: &Case) {
    let Some(variable) = variable_word(case.take_word()) else {
        return case.lacks("a word for what is picked");
    };
    case.take_step_end();
    let domains = take_domains(case);
    match pick(&options_with(variable, ValueWord::Up), &domains) {
        Some(place) => case.tell_count(place),
        None => case.tell("none"),
    }
}

/// Tells the alternatives of a domain.
pub(crate) fn answer_choices(case: &Case) {
    let Some(value) = value_word(case.take_word()) else {
        return case.lacks("a word for alternatives");
    };
    case.take_step_end();
    if let Some(domain) = take_domain(case) {
        let options = options_with(VariableWord::Forward, value);
        tell_choices(case, &options, &domain);
    }
}

/// Options without an objective.
fn options_with(variable: VariableWord, value: ValueWord) -> Options {
    Options {
        variable,
        value,
        objective: None,
    }
}

/// Takes the domain of each step that is left.
fn take_domains(case: &Case) -> Domains {
    let mut domains = Vec::new(case.alloc);
    for _ in 0..case.steps() {
        let domain = take_domain(case);
        case.keep(domain, &mut domains);
        case.take_step_end();
    }
    Domains::from_vec(domains)
}

/// Takes the domain of a step.
fn take_domain(case: &Case) -> Option<Domain> {
    let words = case.take_rest();
    spans_of(case, words)
}

/// Tells each alternative, the next one by the one before it.
fn tell_choices(case: &Case, options: &Options, domain: &Domain) {
    let mut after = None;
    for i in 0..MOST {
        let found = choices(case.alloc, options, domain, after);
        let Some(Some(choice)) = case.made(found) else {
            return;
        };
        case.tell_between(i, ", ");
        tell_choice(case, choice);
        after = Some(choice);
    }
    case.lacks("fewer alternatives");
}

fn tell_choice(case: &Case, choice: Choice) {
    let (what, value) = match choice {
        Choice::Is(value) => ("is ", value),
        Choice::AtMost(value) => ("at most ", value),
        Choice::Above(value) => ("above ", value),
    };
    case.tell(what);
    case.tell_integer(i128::from(value));
}
