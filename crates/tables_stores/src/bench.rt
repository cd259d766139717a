//! A store, what a case keeps beside it, and terms that are put into it.

use pi_types::{Ref, StateStore};
use std::alloc::{AllocError, Global};
use tables_cases::{Case, Node, node_of};

/// The name of pairs of lists.
const PAIR: &str = "[|]";

/// The name of arrays.
const ARRAY: &str = "{}";

/// How an empty slot is written.
pub const EMPTY: &str = "-";

/// The term in place of one that isn't there. A store is safe whatever it is handed.
const NOTHING: Ref = Ref { number: 0 };

/// What `read` asks of a term.
#[derive(Clone, Copy)]
pub enum Reading {
    /// What it is.
    Term,
    /// What it posts, as a goal.
    Goal,
}

/// A store, terms that are named by number, `@0` the first, marks by number too, and what slots hold.
#[derive(Drop)]
pub struct Bench<S: StateStore> {
    pub store: S,
    pub reading: Reading,
    pub terms: Vec<Ref>,
    pub marks: Vec<S::Mark>,
    pub slots: Vec<Option<Ref>>,
}

impl<S: StateStore> Bench<S> {
    /// A store with nothing beside it.
    pub fn new(alloc: Global, store: S, reading: Reading) -> Bench<S> {
        Bench {
            store,
            reading,
            terms: Vec::new(alloc),
            marks: Vec::new(alloc),
            slots: Vec::new(alloc),
        }
    }

    /// Takes the words of a term and puts it into the store.
    pub fn take(&mut self, case: &Case) -> Ref {
        let mut built = Vec::new(case.alloc);
        for word in case.take_extent().iter().rev() {
            let made = self.put(case, word.as_str(), &mut built);
            case.keep(Some(made), &mut built);
        }
        taken(case, &mut built)
    }

    /// Keeps a term under the next number.
    pub fn keep(&mut self, case: &Case, term: Ref) {
        case.keep(Some(term), &mut self.terms);
    }

    /// Takes what each slot holds.
    pub fn take_slots(&mut self, case: &Case) {
        self.slots = Vec::new(case.alloc);
        for _ in 0..case.left() {
            if case.skip(EMPTY) {
                case.keep(Some(None), &mut self.slots);
            } else if case.left() > 0 {
                let held = self.take(case);
                case.keep(Some(Some(held)), &mut self.slots);
            }
        }
    }

    /// Puts the term that begins with this word, over the newest terms of a stack.
    fn put(&mut self, case: &Case, word: &str, built: &mut Vec<Ref>) -> Ref {
        match node_of(word) {
            Node::Var(n) => self.variable(case, n),
            Node::Kept(i) => self.kept(case, i),
            Node::Int(n) => put_in(case, self.store.put_int(n)),
            Node::Atom(name) => {
                let name = case.name_of(name);
                put_in(case, self.store.put_atom(name.as_str()))
            }
            Node::Comp(name, count) => {
                let args = case.several(built, count);
                let name = case.name_of(name);
                put_in(case, self.store.put_comp(name.as_str(), args.as_slice()))
            }
            Node::List(count) => {
                let item = taken(case, built);
                let end = taken(case, built);
                self.put_pairs(case, count, end, Some(item), None)
            }
            Node::Nest(count) => {
                let inner = taken(case, built);
                let last = taken(case, built);
                self.put_pairs(case, count, inner, None, Some(last))
            }
            Node::Twice(count) => {
                let inner = taken(case, built);
                self.put_pairs(case, count, inner, None, None)
            }
            Node::Row(count) => {
                let item = taken(case, built);
                self.put_row(case, count, item)
            }
        }
    }

    /// A variable that was made.
    fn variable(&self, case: &Case, n: u64) -> Ref {
        if n >= self.store.vars() {
            case.lacks("a variable that was made");
        }
        self.store.var_ref(n)
    }

    /// A term that was kept.
    fn kept(&self, case: &Case, i: usize) -> Ref {
        match self.terms.get(i) {
            Some(kept) => *kept,
            None => {
                case.lacks("a term that was kept");
                NOTHING
            }
        }
    }

    /// So many pairs, each over the one before, which stands in the place that isn't given.
    fn put_pairs(
        &mut self,
        case: &Case,
        count: usize,
        innermost: Ref,
        first: Option<Ref>,
        second: Option<Ref>,
    ) -> Ref {
        let mut made = innermost;
        for _ in 0..count {
            let pair = [first.unwrap_or(made), second.unwrap_or(made)];
            made = put_in(case, self.store.put_comp(PAIR, &pair));
        }
        made
    }

    /// An array of so many times an item.
    fn put_row(&mut self, case: &Case, count: usize, item: Ref) -> Ref {
        let mut items = Vec::new(case.alloc);
        for _ in 0..count {
            case.keep(Some(item), &mut items);
        }
        put_in(case, self.store.put_comp(ARRAY, items.as_slice()))
    }
}

/// A term that was put into a store, which fails for want of memory alone.
fn put_in(case: &Case, put: Result<Ref, AllocError>) -> Ref {
    case.made(put).unwrap_or(NOTHING)
}

/// Takes the newest term off a stack.
fn taken(case: &Case, built: &mut Vec<Ref>) -> Ref {
    case.one(built).unwrap_or(NOTHING)
}
