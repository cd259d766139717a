//! Terms from cells that lack the sizes of their compounds.
ghost use Rattle.std.specs.Prelude.{◌≡◌, ◌+◌, ◌<◌, ◌≤◌, Some, IfSome, length, drop, slice_get, slice_set, slice_index_or};
ghost use Rattle.pi_terms.specs.Tree.{Tree, tree_count, drop_trees};
ghost use Rattle.pi_terms.specs.TermCells.{flat, flat_all, spelled};
ghost use Rattle.pi_terms.specs.BareCells.{bare, with_size, count_of, sized, HasBehind, AreSpelt};

use crate::term::{Term, TermCell};

impl TermCell {
    /// How many arguments the compound has that begins here.
    fn count(&self) -> Option<usize>
        ensures { result ≡ count_of self.now }
    {
        match self {
            TermCell::Comp(_, count, _) => Some(*count),
            _ => None,
        }
    }

    /// Sets the number of cells of the compound that begins here.
    fn set_size(&mut self, size: usize)
        ensures { self.new ≡ with_size self.old size }
    {
        if let TermCell::Comp(_, _, old) = self {
            *old = size;
        }
    }
}

impl Term {
    /// The term whose cells these are, in prefix order, before the sizes of its compounds are set.
    pub fn from_bare(cells: Vec<TermCell>) -> Term
        requires { (t : Tree) × (cells.items ≡ bare t) }
        ensures { (t : Tree) → cells.items ≡ bare t → result ≡ t }
    {
        let mut sized = cells;
        set_sizes(&mut sized);
        Term { cells: sized }
    }
}

/// Sets the sizes of all compounds of a term, from its last cell on.
fn set_sizes(cells: &mut [TermCell])
    requires { (t : Tree) × (cells.old ≡ bare t) }
    ensures { (t : Tree) → cells.old ≡ bare t → cells.new ≡ flat t }
{
    let count = cells.len();
    for k in 0..count {
        set_size(cells, count - 1 - k);
    }
}

/// Sets the size of the term that begins at a cell, where those behind it are set.
fn set_size(cells: &mut [TermCell], at: usize)
    requires within { at < length cells.old }
    requires spelt { AreSpelt (drop (at + 1) cells.old) }
    requires behind { IfSome (slice_get cells.old at) (λ c. HasBehind c (spelled (drop (at + 1) cells.old))) }
    ensures { IfSome (slice_get cells.old at) (λ c. cells.new ≡ slice_set cells.old at (sized c (spelled (drop (at + 1) cells.old)))) }
{
    let Some(count) = cells[at].count() else {
        return;
    };
    let end = end_of(cells, at + 1, count);
    let cell = &mut cells[at];
    cell.set_size(end - at);
}

/// Where so many terms end that begin at a cell.
fn end_of(cells: &[TermCell], from: usize, many: usize) -> usize
    requires within { from ≤ length cells.now }
    requires spelt { AreSpelt (drop from cells.now) }
    requires behind { many ≤ tree_count (spelled (drop from cells.now)) }
    ensures within { result ≤ length cells.now }
    ensures place { drop result cells.now ≡ flat_all (drop_trees many (spelled (drop from cells.now))) }
{
    let mut at = from;
    for _k in 0..many {
        at += cells[at].size();
    }
    at
}
