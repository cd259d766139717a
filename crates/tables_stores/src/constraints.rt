//! Constraints as they are told: in the words of a step that posts them.

use pi_types::{Constraint, Item, LinTerms, Rel};
use tables_cases::Case;

/// Tells a constraint in words.
pub fn tell_constraint(constraint: &Constraint, case: &Case) {
    match constraint {
        Constraint::Linear {
            rel,
            terms,
            constant,
        } => tell_sum("sum", *rel, *constant, terms, case),
        Constraint::Product { z, x, y } => tell_items("product", &[*z, *x, *y], case),
        Constraint::Absolute { z, x } => tell_items("absolute", &[*z, *x], case),
        Constraint::Different(items) => tell_items("different", items.as_slice(), case),
        Constraint::Distinct(items) => tell_items("distinct", items.as_slice(), case),
        Constraint::Element {
            index,
            items,
            value,
        } => {
            tell_items("element", &[*index, *value], case);
            tell_items("", items.as_slice(), case);
        }
        Constraint::Reified {
            truth,
            rel,
            terms,
            constant,
        } => {
            tell_items("truth", &[*truth], case);
            tell_sum("", *rel, *constant, terms, case);
        }
    }
}

/// Tells how a sum stands to 0, its constant and its terms, behind a name.
fn tell_sum(name: &str, rel: Rel, constant: i128, terms: &LinTerms, case: &Case) {
    case.tell(name);
    case.tell(match rel {
        Rel::Equal => " = ",
        Rel::Unequal => " # ",
        Rel::AtMost => " < ",
    });
    case.tell_integer(constant);
    for (coefficient, variable) in terms.as_slice() {
        case.tell(" ");
        case.tell_integer(*coefficient);
        case.tell(" ");
        case.tell_variable(*variable);
    }
}

/// Tells items, each behind a blank, behind a name.
fn tell_items(name: &str, items: &[Item], case: &Case) {
    case.tell(name);
    for item in items {
        case.tell(" ");
        match item {
            Item::Var(n) => case.tell_variable(*n),
            Item::Int(n) => case.tell_integer(i128::from(*n)),
        }
    }
}
