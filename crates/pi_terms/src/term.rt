//! Terms as flat vectors of cells, and how they are made and looked at.
ghost use Rattle.std.specs.Prelude.{◌≡◌, ◌≤◌, ◌+◌, ◌<◌, ◌++◌, List, ℕ, Some, IfOk, IfSome, IsNone, IsSomeAnd, ◌^◌, slice_get, length, drop};
ghost use Rattle.pi_terms.specs.Tree.{Tree, var, int, atom, comp, trees_of, cells, cells_all, arity, args, arg_at, drop_trees, subterms, ShowsHead};
ghost use Rattle.pi_terms.specs.TermCells.{flat, flat_all, tree_of, size_of, CellShows};

mod bare;
mod renumbered;

use crate::text::Text;
use std::alloc::{AllocError, Global};
use std::marker::Model;

/// A cell of a term: one node, in prefix order.
pub enum TermCell {
    Var(u64),
    Int(i128),
    Atom(Text),
    /// Its name, the number of its arguments, and the number of cells of the whole compound.
    Comp(Text, usize, usize),
}

// By hand, so that letting one go is a call and not its parts at each way out.
impl Drop for TermCell {
    fn drop(self) {
        match self {
            TermCell::Var(_) => {}
            TermCell::Int(_) => {}
            TermCell::Atom(_) => {}
            TermCell::Comp(_, _, _) => {}
        }
    }
}

impl TermCell {
    /// How many cells the term takes that begins here.
    fn size(&self) -> usize
        ensures { result ≡ size_of self.now }
    {
        match self {
            TermCell::Comp(_, _, size) => *size,
            _ => 1,
        }
    }

    /// What a term that begins here is at its root.
    fn head(&self) -> TermHead<'_>
        ensures { CellShows self.now result }
    {
        match self {
            TermCell::Var(n) => TermHead::Var(*n),
            TermCell::Int(n) => TermHead::Int(*n),
            TermCell::Atom(name) => TermHead::Atom(name.as_str()),
            TermCell::Comp(name, count, _) => TermHead::Comp(name.as_str(), *count),
        }
    }

    fn copy(&self, alloc: Global) -> Result<TermCell, AllocError>
        ensures ok { IfOk result (λ made. made ≡ self.now) }
    {
        match self {
            TermCell::Var(n) => Ok(TermCell::Var(*n)),
            TermCell::Int(n) => Ok(TermCell::Int(*n)),
            TermCell::Atom(name) => Ok(TermCell::Atom(name.copy(alloc)?)),
            TermCell::Comp(name, count, size) => Ok(TermCell::Comp(
                name.copy(alloc)?,
                *count,
                *size,
            )),
        }
    }
}

/// What a term is at its root: the number of a variable, an integer, the name of an atom, or the name of a compound and
/// the number of its arguments.
#[derive(Clone, Copy)]
pub enum TermHead<'a> {
    Var(u64),
    Int(i128),
    Atom(&'a str),
    Comp(&'a str, usize),
}

/// A term as it is written down and handed from layer to layer: one flat vector of cells in prefix order, which a
/// contract sees as a tree.
pub struct Term {
    cells: Vec<TermCell>,
}

// By hand, so that letting one go is a call and not its parts at each way out.
impl Drop for Term {
    fn drop(self) {
        let Term { cells: _ } = self;
    }
}

impl Model for Term {
    ghost use Rattle.std.specs.Prelude.{◌≡◌};
    ghost use Rattle.pi_terms.specs.Tree.{Tree};
    ghost use Rattle.pi_terms.specs.TermCells.{flat, tree_of, tree_code};

    ghost Value = { Tree };

    ghost coded = { tree_code };

    ghost view = { λ a. tree_of a.cells.items };

    ghost invariant = { λ a. a.cells.items ≡ flat (tree_of a.cells.items) };
}

impl Term {
    /// The variable with this number.
    #[tactic(auto, unfolding(crate::specs::TermCells::flat, crate::specs::TermCells::spelled, crate::specs::TermCells::tree_of))]
    pub fn var(alloc: Global, n: u64) -> Result<Term, AllocError>
        ensures ok { IfOk result (λ t. t ≡ var n) }
    {
        let mut cells = Vec::new(alloc);
        cells.push(TermCell::Var(n))?;
        Ok(Term { cells })
    }

    /// An integer.
    #[tactic(auto, unfolding(crate::specs::TermCells::flat, crate::specs::TermCells::spelled, crate::specs::TermCells::tree_of))]
    pub fn int(alloc: Global, n: i128) -> Result<Term, AllocError>
        ensures ok { IfOk result (λ t. t ≡ int n) }
    {
        let mut cells = Vec::new(alloc);
        cells.push(TermCell::Int(n))?;
        Ok(Term { cells })
    }

    /// The atom with this name.
    #[tactic(auto, unfolding(crate::specs::TermCells::flat, crate::specs::TermCells::spelled, crate::specs::TermCells::tree_of))]
    pub fn atom(alloc: Global, name: &str) -> Result<Term, AllocError>
        ensures ok { IfOk result (λ t. t ≡ atom name.now) }
    {
        let mut cells = Vec::new(alloc);
        cells.push(TermCell::Atom(Text::new(alloc, name)?))?;
        Ok(Term { cells })
    }

    /// The compound with this name and these arguments, of which there may be none.
    pub fn comp(alloc: Global, name: &str, args: &[Term]) -> Result<Term, AllocError>
        ensures ok { IfOk result (λ t. t ≡ comp name.now (trees_of args.now)) }
    {
        let Some(size) = size_with(args) else {
            return Err(AllocError);
        };
        let mut cells = Vec::new(alloc);
        cells.push(TermCell::Comp(Text::new(alloc, name)?, args.len(), size))?;
        push_args(&mut cells, args)?;
        Ok(Term { cells })
    }

    /// What the term is at its root.
    pub fn head(&self) -> TermHead<'_>
        ensures { ShowsHead self.now result }
    {
        self.cells[0].head()
    }

    /// What the term is at a cell: its node with this number in prefix order, counted from 0. Each compound stands before
    /// its arguments, which follow from the left.
    #[tactic(auto, using(crate::proofs::TermLemmas::length_flat))]
    pub fn head_at(&self, i: usize) -> TermHead<'_>
        requires { i < cells self.now }
        ensures { IsSomeAnd (slice_get (subterms self.now) i) (λ u. ShowsHead u result) }
    {
        self.cells[i].head()
    }

    /// The argument with this number, counted from 0.
    pub fn arg(&self, alloc: Global, i: usize) -> Result<Term, AllocError>
        requires { i < arity self.now }
        ensures ok { IfOk result (λ t. arg_at self.now i ≡ Some t) }
    {
        let mut cells = Vec::new(alloc);
        push_cells(&mut cells, cells_of(&self.cells, i))?;
        Ok(Term { cells })
    }

    /// The number of cells: one for each node of the tree.
    #[tactic(auto, using(crate::proofs::TermLemmas::length_flat))]
    pub fn cells(&self) -> usize
        ensures { result ≡ cells self.now }
    {
        self.cells.len()
    }

    /// Another term of the same tree.
    pub fn copy(&self, alloc: Global) -> Result<Term, AllocError>
        ensures ok { IfOk result (λ made. made ≡ self.now) }
    {
        let mut cells = Vec::new(alloc);
        push_cells(&mut cells, &self.cells)?;
        Ok(Term { cells })
    }
}

/// The cells of a compound with these arguments; None where no vector can have as many.
fn size_with(args: &[Term]) -> Option<usize>
    ensures some { IfSome result (λ size. size ≡ cells_all (trees_of args.now) + 1) }
    ensures none { IsNone result → 2 ^ 64 ≤ cells_all (trees_of args.now) + 1 }
{
    let mut size = 1usize;
    for arg in args {
        size = size.checked_add(arg.cells())?;
    }
    Some(size)
}

fn push_args(cells: &mut Vec<TermCell>, args: &[Term]) -> Result<(), AllocError>
    ensures ok { IfOk result (λ _. cells.new.items ≡ cells.old.items ++ flat_all (trees_of args.now)) }
{
    for arg in args {
        push_cells(cells, &arg.cells)?;
    }
    Ok(())
}

fn push_cells(cells: &mut Vec<TermCell>, more: &[TermCell]) -> Result<(), AllocError>
    ensures ok { IfOk result (λ _. cells.new.items ≡ cells.old.items ++ more.now) }
{
    let alloc = *cells.allocator();
    for cell in more {
        cells.push(cell.copy(alloc)?)?;
    }
    Ok(())
}

/// The cells of argument `i` of a term.
fn cells_of(cells: &[TermCell], i: usize) -> &[TermCell]
    requires spells { cells.now ≡ flat (tree_of cells.now) }
    requires has { i < arity (tree_of cells.now) }
    ensures { IsSomeAnd (arg_at (tree_of cells.now) i) (λ t. result.now ≡ flat t) }
{
    let from = place_of(cells, i);
    let to = from + cells[from].size();
    &cells[from..to]
}

/// Where argument `i` begins in the cells of a term.
fn place_of(cells: &[TermCell], i: usize) -> usize
    requires spells { cells.now ≡ flat (tree_of cells.now) }
    requires has { i < arity (tree_of cells.now) }
    ensures within { result < length cells.now }
    ensures place { drop result cells.now ≡ flat_all (drop_trees i (args (tree_of cells.now))) }
{
    let mut at = 1;
    for _k in 0..i {
        at += cells[at].size();
    }
    at
}
