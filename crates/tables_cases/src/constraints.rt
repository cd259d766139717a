//! Constraints in words: `absolute Z X`, `product Z X Y`, `different ITEM ..`, `distinct ITEM ..`, `element INDEX VALUE ITEM ..`,
//! `sum = CONSTANT COEFFICIENT VARIABLE ..` with `=`, `#` or `<`, and `truth ITEM = ..` as a sum. An item is an integer or
//! `_7`. Cases of filters write `linear` for `sum`, `reified` for `truth`, `!=` for `#` and `=<` for `<`.

use crate::case::Case;
use crate::nodes::{Node, node_of};
use crate::rows::named;
use pi_types::{Constraint, Item, Items, LinTerms, Rel};

/// A kind of constraint.
#[derive(Clone, Copy)]
enum Kind {
    Absolute,
    Product,
    Different,
    Distinct,
    Element,
    Sum,
    Truth,
}

/// Each kind with its words.
const KINDS: [(&str, Kind); 9] = [
    ("absolute", Kind::Absolute),
    ("product", Kind::Product),
    ("different", Kind::Different),
    ("distinct", Kind::Distinct),
    ("element", Kind::Element),
    ("sum", Kind::Sum),
    ("linear", Kind::Sum),
    ("truth", Kind::Truth),
    ("reified", Kind::Truth),
];

/// How a sum stands to 0, with the words for it.
const RELATIONS: [(&str, Rel); 5] = [
    ("=", Rel::Equal),
    ("#", Rel::Unequal),
    ("!=", Rel::Unequal),
    ("<", Rel::AtMost),
    ("=<", Rel::AtMost),
];

/// The kind with a word.
fn kind_of(word: &str) -> Option<Kind> {
    named(&KINDS, word)
}

/// Takes the words of a constraint behind its kind; None where that isn't a kind.
pub fn take_constraint(case: &Case, kind: &str) -> Option<Constraint> {
    Some(match kind_of(kind)? {
        Kind::Absolute => Constraint::Absolute {
            z: take_item(case),
            x: take_item(case),
        },
        Kind::Product => Constraint::Product {
            z: take_item(case),
            x: take_item(case),
            y: take_item(case),
        },
        Kind::Different => Constraint::Different(take_items(case)),
        Kind::Distinct => Constraint::Distinct(take_items(case)),
        Kind::Element => Constraint::Element {
            index: take_item(case),
            value: take_item(case),
            items: take_items(case),
        },
        Kind::Sum => Constraint::Linear {
            rel: take_relation(case),
            constant: case.take_integer(),
            terms: take_terms(case),
        },
        Kind::Truth => Constraint::Reified {
            truth: take_item(case),
            rel: take_relation(case),
            constant: case.take_integer(),
            terms: take_terms(case),
        },
    })
}

/// Takes how a sum stands to 0.
fn take_relation(case: &Case) -> Rel {
    match named(&RELATIONS, case.take_word()) {
        Some(relation) => relation,
        None => {
            case.lacks("how a sum stands to 0");
            Rel::Equal
        }
    }
}

/// Takes the terms of a sum: each a coefficient and a variable.
fn take_terms(case: &Case) -> LinTerms {
    let mut terms = Vec::new(case.alloc);
    for _ in 0..case.left() / 2 {
        let coefficient = case.take_integer();
        let variable = take_variable(case);
        case.keep(Some((coefficient, variable)), &mut terms);
    }
    LinTerms::from_vec(terms)
}

fn take_variable(case: &Case) -> u64 {
    match take_item(case) {
        Item::Var(variable) => variable,
        Item::Int(_) => {
            case.lacks("a variable behind its coefficient");
            0
        }
    }
}

/// Takes the items that are left.
fn take_items(case: &Case) -> Items {
    let mut items = Vec::new(case.alloc);
    for _ in 0..case.left() {
        case.keep(Some(take_item(case)), &mut items);
    }
    Items::from_vec(items)
}

fn take_item(case: &Case) -> Item {
    match node_of(case.take_word()) {
        Node::Var(n) => Item::Var(n),
        Node::Int(n) => Item::Int(small(case, n)),
        _ => {
            case.lacks("an item in place of a word");
            Item::Int(0)
        }
    }
}

/// The integer of an item.
fn small(case: &Case, n: i128) -> i64 {
    match i64::try_from(n) {
        Ok(n) => n,
        Err(_) => {
            case.lacks("a smaller integer of an item");
            0
        }
    }
}
