//! Terms in words.

use crate::case::Case;
use crate::nodes::{Node, extent, node_of};
use pi_types::{Term, TermHead};

impl Case {
    /// Takes the words of one term.
    pub fn take_extent(&self) -> &[String] {
        let count = extent(self.ahead());
        if count.is_none() {
            self.lacks("a whole term");
        }
        self.take_words(count.unwrap_or(0))
    }

    /// Takes the words of a term.
    pub fn take_term(&self) -> Option<Term> {
        let words = self.take_extent();
        term_of(self, words)
    }

    /// Writes a term in words.
    pub fn tell_term(&self, term: &Term) {
        for i in 0..term.cells() {
            self.tell_between(i, " ");
            self.tell_head(term.head_at(i));
        }
    }

    /// Writes the word of a node.
    pub fn tell_head(&self, head: TermHead<'_>) {
        match head {
            TermHead::Var(n) => self.tell_variable(n),
            TermHead::Int(n) => self.tell_integer(n),
            TermHead::Atom(name) => self.tell_name(name),
            TermHead::Comp(name, count) => self.tell_called(name, count),
        }
    }

    /// Writes the word of a variable.
    pub fn tell_variable(&self, n: u64) {
        self.tell_character('_');
        self.tell_number(n);
    }

    /// Writes a name and the number of its arguments.
    pub fn tell_called(&self, name: &str, count: usize) {
        self.tell_name(name);
        self.tell_character('/');
        self.tell_count(count);
    }
}

/// The term that words are.
pub fn term_of(case: &Case, words: &[String]) -> Option<Term> {
    let mut built = Vec::new(case.alloc);
    for word in words.iter().rev() {
        push_term(case, word.as_str(), &mut built);
    }
    let term = case.one(&mut built);
    if !built.is_empty() {
        case.lacks("one term alone");
    }
    term
}

/// Puts the term that begins with this word in the place of its arguments, which are the newest terms of a stack.
pub fn push_term(case: &Case, word: &str, built: &mut Vec<Term>) {
    let made = match node_of(word) {
        Node::Var(n) => Term::var(case.alloc, n),
        Node::Int(n) => Term::int(case.alloc, n),
        Node::Atom(name) => {
            let name = case.name_of(name);
            Term::atom(case.alloc, name.as_str())
        }
        Node::Comp(name, count) => {
            let args = case.several(built, count);
            let name = case.name_of(name);
            Term::comp(case.alloc, name.as_str(), args.as_slice())
        }
        _ => return case.lacks("a term that needs no store"),
    };
    case.keep_made(made, built);
}
