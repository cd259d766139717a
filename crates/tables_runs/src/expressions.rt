//! Expressions in words in prefix order: `p/2 X -1`, where a name that begins with a capital or `_` is a variable, and
//! `,/2` puts goals one after another.

use pi_types::{Exp, Integer};
use tables_cases::{Case, Node, node_of};

/// The expression that words are.
pub fn expression_of(case: &Case, words: &[String]) -> Option<Exp> {
    let mut built = Vec::new(case.alloc);
    for word in words.iter().rev() {
        let made = expression_over(case, word.as_str(), &mut built);
        case.keep(made, &mut built);
    }
    let expression = case.one(&mut built);
    if !built.is_empty() {
        case.lacks("one expression alone");
    }
    expression
}

/// The expression that begins with this word, over the newest ones of a stack.
fn expression_over(case: &Case, word: &str, built: &mut Vec<Exp>) -> Option<Exp> {
    if is_variable(word) {
        return Some(Exp::Var(case.name_of(word)));
    }
    match node_of(word) {
        Node::Int(n) => Some(Exp::Int(Integer::new(n))),
        Node::Atom(name) => Some(Exp::Atom(case.name_of(name))),
        Node::Comp(",", count) => Some(Exp::And(case.several(built, count))),
        Node::Comp(name, count) => Some(Exp::Call(case.name_of(name), case.several(built, count))),
        _ => {
            case.lacks("an expression in place of a word");
            None
        }
    }
}

/// Whether a word is a variable.
fn is_variable(word: &str) -> bool {
    match word.chars().next() {
        Some(first) => first == '_' || first.is_ascii_uppercase(),
        None => false,
    }
}
