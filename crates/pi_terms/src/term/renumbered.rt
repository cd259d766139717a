//! Copies of terms with their variables numbered by first occurrence.
ghost use Rattle.std.specs.Prelude.{◌≡◌, IfOk, map};
ghost use Rattle.pi_terms.specs.TermCells.{flat, tree_of};
ghost use Rattle.pi_terms.specs.Variables.{firsts};
ghost use Rattle.pi_terms.specs.Copy.{copy, place_in};
ghost use Rattle.pi_terms.specs.RenamedCells.{variables_at, noted_cell, renamed_cell, IsKnown};

use crate::numbers::Numbers;
use crate::term::{Term, TermCell};
use std::alloc::{AllocError, Global};

impl Term {
    /// The term with its variables numbered from 0 on, in the order of their first occurrences from the left.
    pub fn renumbered(&self, alloc: Global) -> Result<Term, AllocError>
        ensures ok { IfOk result (λ made. made ≡ copy 0 self.now) }
    {
        let cells = copied_cells(alloc, &self.cells)?;
        Ok(Term { cells })
    }
}

impl TermCell {
    /// The same cell, but for a variable the one with the place of its number.
    fn renumbered(&self, alloc: Global, numbers: &Numbers) -> Result<TermCell, AllocError>
        requires known { IsKnown numbers.now self.now }
        ensures ok { IfOk result (λ made. made ≡ renamed_cell (place_in numbers.now) self.now) }
    {
        match self {
            TermCell::Var(n) => Ok(TermCell::Var(numbers.place(*n) as u64)),
            other => Ok(other.copy(alloc)?),
        }
    }
}

/// The cells of the copy of a term.
fn copied_cells(alloc: Global, cells: &[TermCell]) -> Result<Vec<TermCell>, AllocError>
    requires spells { cells.now ≡ flat (tree_of cells.now) }
    ensures ok { IfOk result (λ made. made.items ≡ flat (copy 0 (tree_of cells.now))) }
{
    let numbers = numbers_of(alloc, cells)?;
    let made = renumbered_cells(alloc, cells, &numbers)?;
    Ok(made)
}

/// The variables at cells, by first occurrence.
fn numbers_of(alloc: Global, cells: &[TermCell]) -> Result<Numbers, AllocError>
    ensures ok { IfOk result (λ numbers. numbers ≡ firsts (variables_at cells.now)) }
{
    let mut numbers = Numbers::new(alloc);
    for cell in cells {
        note_cell(&mut numbers, cell)?;
    }
    Ok(numbers)
}

/// Notes the variable that stands at a cell, where it is one.
fn note_cell(numbers: &mut Numbers, cell: &TermCell) -> Result<(), AllocError>
    ensures ok { IfOk result (λ _. numbers.new ≡ noted_cell numbers.old cell.now) }
{
    match cell {
        TermCell::Var(n) => numbers.meet(*n)?,
        _ => {}
    }
    Ok(())
}

/// The same cells with the places of their variables in place of their numbers.
fn renumbered_cells(
    alloc: Global,
    cells: &[TermCell],
    numbers: &Numbers,
) -> Result<Vec<TermCell>, AllocError>
    requires known { numbers.now ≡ firsts (variables_at cells.now) }
    ensures ok { IfOk result (λ made. made.items ≡ map (renamed_cell (place_in numbers.now)) cells.now) }
{
    let mut made = Vec::new(alloc);
    for cell in cells {
        made.push(cell.renumbered(alloc, numbers)?)?;
    }
    Ok(made)
}
