//! Terms that are read out of a store.
ghost use Rattle.std.specs.Prelude.{◌≡◌, ◌≤◌, ◌++◌, ◌∷◌, [], IfOk, MatchResult};
ghost use Rattle.pi_terms.specs.Tree.{Tree, cells, most_cells};
ghost use Rattle.pi_terms.specs.BareCells.{bare};
ghost use Rattle.pi_constraints.specs.Value.{value};
ghost use Rattle.pi_constraints.specs.Store.{ShowsRead};
ghost use Rattle.pi_store.specs.Walk.{followed_at};
ghost use Rattle.pi_store.specs.Holding.{heap_of};
ghost use Rattle.pi_store.specs.Bindings.{bound_in};
ghost use Rattle.pi_store.specs.Read.{entered_cell, arity_of, followed_words, Pushes, IsReadable, StopsAt};

use crate::walk::followed;
use pi_constraints::{Cell, ReadStop, Ref};
use pi_region::Trailed;
use pi_store_blocks as raw;
use pi_store_blocks::RawNames;
use pi_terms::{Term, TermCell, Text};
use std::alloc::{AllocError, Global};

/// The most cells of a term that is read. The number is own.
const MOST_CELLS: usize = 16777216;

/// How a term is read.
#[derive(Clone, Copy)]
pub enum Reading {
    /// With bindings replaced throughout.
    Value,
    /// As it was made.
    Made,
}

/// A term as it is read.
pub fn read(
    alloc: Global,
    names: &RawNames,
    words: &Trailed,
    reading: Reading,
    r: Ref,
) -> Result<Term, ReadStop>
    ensures { (t : Tree) → IsReadable names.now words.now (followed_words reading words.now.variables) r t →
        ShowsRead (value (bound_in (heap_of names.now words.now) (followed_words reading words.now.variables)) t) result }
{
    let cells = bare_cells(alloc, names, words, reading, r)?;
    Ok(Term::from_bare(cells))
}

/// Its cells in prefix order, without the sizes of compounds.
fn bare_cells(
    alloc: Global,
    names: &RawNames,
    words: &Trailed,
    reading: Reading,
    r: Ref,
) -> Result<Vec<TermCell>, ReadStop>
    ensures spelt { IfOk result (λ made. (u : Tree) × (made.items ≡ bare u)) }
    ensures reads { (t : Tree) → IsReadable names.now words.now (followed_words reading words.now.variables) r t →
        MatchResult result (λ made. (made.items ≡ bare
        (value (bound_in (heap_of names.now words.now) (followed_words reading words.now.variables)) t)) ×
        (cells (value (bound_in (heap_of names.now words.now) (followed_words reading words.now.variables)) t) ≤ most_cells))
        (StopsAt (value (bound_in (heap_of names.now words.now) (followed_words reading words.now.variables)) t)) }
{
    let mut read = Vec::new(alloc);
    let mut stack = Vec::new(alloc);
    let Ok(()) = stack.push(r) else {
        return Err(ReadStop::Memory);
    };
    while let Some(at) = stack.pop() {
        let last = root(words, reading, at);
        let cell = raw::cell(words, last);
        if arity(cell) > (MOST_CELLS - 1 - read.len() - stack.len()) as u64 {
            return Err(ReadStop::TooLarge);
        }
        let Ok(()) = enter(alloc, names, words, last, cell, &mut read, &mut stack) else {
            return Err(ReadStop::Memory);
        };
    }
    Ok(read)
}

/// The term itself, or what it is bound to, directly or through others, as it is read.
#[tactic(auto, unfolding(crate::specs::Walk::steps_at))]
fn root(words: &Trailed, reading: Reading, r: Ref) -> Ref
    ensures { result ≡ followed_at (followed_words reading words.now.variables) r }
{
    match reading {
        Reading::Value => followed(words, r),
        Reading::Made => r,
    }
}

/// Puts the cell of a term behind those that were read, and its arguments on the stack.
fn enter(
    alloc: Global,
    names: &RawNames,
    words: &Trailed,
    r: Ref,
    cell: Cell,
    read: &mut Vec<TermCell>,
    stack: &mut Vec<Ref>,
) -> Result<(), AllocError>
    ensures read { IfOk result (λ _. read.new.items ≡ read.old.items ++ entered_cell names.now.texts cell ∷ []) }
    ensures stack { IfOk result (λ _. Pushes words.now.region r (arity_of cell) 0 stack.old.items stack.new.items) }
{
    let entered = bare_cell(alloc, names, cell)?;
    read.push(entered)?;
    push_args(words, r, arity(cell), stack)?;
    Ok(())
}

/// How many arguments a term has, by what it is at its root.
pub fn arity(cell: Cell) -> u64
    ensures { result ≡ arity_of cell }
{
    match cell {
        Cell::Var(_) => 0,
        Cell::Int(_) => 0,
        Cell::Atom(_) => 0,
        Cell::Comp(_, count) => count,
    }
}

/// The cell of a term, by what it is at its root, without its size.
fn bare_cell(alloc: Global, names: &RawNames, cell: Cell) -> Result<TermCell, AllocError>
    ensures { IfOk result (λ made. made ≡ entered_cell names.now.texts cell) }
{
    match cell {
        Cell::Var(n) => Ok(TermCell::Var(n)),
        Cell::Int(n) => Ok(TermCell::Int(n)),
        Cell::Atom(number) => {
            let name = Text::new(alloc, names.name(number))?;
            Ok(TermCell::Atom(name))
        }
        Cell::Comp(number, count) => {
            let name = Text::new(alloc, names.name(number))?;
            Ok(TermCell::Comp(name, count as usize, 0))
        }
    }
}

/// Puts so many arguments of a term on a stack, the first on top.
fn push_args(words: &Trailed, r: Ref, count: u64, stack: &mut Vec<Ref>) -> Result<(), AllocError>
    ensures { IfOk result (λ _. Pushes words.now.region r count 0 stack.old.items stack.new.items) }
{
    for k in 0..count {
        stack.push(raw::arg(words, r, count - 1 - k))?;
    }
    Ok(())
}
