//! The nodes of a term, read from the front.
ghost use Rattle.std.specs.Prelude.{◌≡◌, ◌+◌, ◌≤◌, MatchOption, IfNone, OnSome};
ghost use Rattle.pi_terms.specs.Tree.{Tree, Trees, no_trees, tree, tree_count, cells_all};
ghost use Rattle.pi_print_terms.specs.Ahead.{built, behind, argument_count};

use pi_terms::{Term, TermHead};
use std::marker::Model;

/// The terms that a reader of a term has ahead of it. A contract sees their trees.
#[derive(Drop)]
pub struct Nodes<'t> {
    term: &'t Term,
    at: usize,
}

impl<'t> Model for Nodes<'t> {
    ghost use Rattle.std.specs.Prelude.{◌≡◌, drop};
    ghost use Rattle.pi_terms.specs.Tree.{Trees, subterms, subterms_all};
    ghost use Rattle.pi_print_terms.specs.Ahead.{roots, trees_code};

    ghost Value = { Trees };

    ghost coded = { trees_code };

    ghost view = { λ a. roots (drop a.at (subterms a.term.now)) };

    ghost invariant = { λ a. drop a.at (subterms a.term.now) ≡ subterms_all (roots (drop a.at (subterms a.term.now))) };
}

impl<'t> Nodes<'t> {
    /// A reader with a whole term ahead of it.
    pub fn new(term: &'t Term) -> Nodes<'t>
        ensures { result ≡ tree term.now no_trees }
    {
        Nodes { term, at: 0 }
    }

    /// Another reader at the same place.
    pub fn copy(&self) -> Nodes<'t>
        ensures { result ≡ self.now }
    {
        Nodes {
            term: self.term,
            at: self.at,
        }
    }

    /// Reads what the first term ahead is at its root, and has its arguments ahead then, and what follows them.
    pub fn next(&mut self) -> Option<TermHead<'t>>
        ensures root { MatchOption result (self.old ≡ no_trees) (λ h. self.old ≡ tree (built h self.new) (behind h self.new)) }
        ensures arguments { OnSome result (argument_count result ≤ tree_count self.new) }
        ensures kept { IfNone result (self.new ≡ self.old) }
        ensures fewer { OnSome result (cells_all self.new + 1 ≡ cells_all self.old) }
    {
        let at = self.at;
        if at >= self.term.cells() {
            return None;
        }
        self.at = at + 1;
        Some(self.term.head_at(at))
    }
}
