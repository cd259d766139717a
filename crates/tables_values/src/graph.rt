//! Graphs: what the bodies of a planner call come to at each state.

use pi_plan::{Successor, Successors};
use pi_print::term_text;
use pi_types::{Term, Text};
use tables_cases::Case;

/// What the bodies come to at a state where so much of the limit is left, or more.
#[derive(Drop)]
pub struct Entry {
    state: Text,
    rest: i128,
    pub is_final: bool,
    pub successors: Successors,
}

impl Entry {
    /// Whether it stands for the state with this text, where so much is left.
    pub fn stands_for(&self, state: &str, rest: i128) -> bool {
        self.rest <= rest && self.state.as_str() == state
    }
}

/// Takes the entries that are left, a step each: a state, by rests the least rest for which the entry stands, `final` where it
/// is that, and answers of `action`, each behind `to`.
pub fn take_graph(case: &Case, by_rest: bool) -> Vec<Entry> {
    let mut graph = Vec::new(case.alloc);
    let entries = case.steps().saturating_sub(1);
    case.take_step_end();
    for _ in 0..entries {
        let entry = take_entry(case, by_rest);
        case.keep(entry, &mut graph);
        case.take_step_end();
    }
    graph
}

/// Takes an entry.
fn take_entry(case: &Case, by_rest: bool) -> Option<Entry> {
    let state = take_text(case)?;
    let rest = take_rest(case, by_rest);
    Some(Entry {
        state,
        rest,
        is_final: case.skip("final"),
        successors: take_successors(case),
    })
}

/// Takes the least rest for which an entry stands.
fn take_rest(case: &Case, by_rest: bool) -> i128 {
    if by_rest { case.take_integer() } else { 0 }
}

/// Takes a term, as its text.
fn take_text(case: &Case) -> Option<Text> {
    let term = case.take_term()?;
    text_of(case, &term)
}

/// Takes answers of `action`.
fn take_successors(case: &Case) -> Successors {
    let mut successors = Successors::new(case.alloc);
    for _ in 0..case.left() {
        if case.skip("to")
            && let Some(successor) = take_successor(case)
        {
            let added = successors.push(successor);
            case.done(added);
        }
    }
    successors
}

/// Takes an answer of `action`: the state that follows, the action and its cost.
fn take_successor(case: &Case) -> Option<Successor> {
    let state = case.take_term()?;
    let action = case.take_term()?;
    let cost = case.take_term()?;
    Some(Successor {
        state,
        action,
        cost,
    })
}

/// The text of a term.
pub fn text_of(case: &Case, term: &Term) -> Option<Text> {
    let text = term_text(case.alloc, term, true);
    case.made(text)
}
