//! Terms that are read out of a stored state.
ghost use Rattle.std.specs.Prelude.{◌≡◌, ◌≤◌, ◌++◌, ◌∷◌, [], length, slice_get, IfOk, MatchResult};
ghost use Rattle.pi_terms.specs.Tree.{Tree, cells, most_cells};
ghost use Rattle.pi_constraints.specs.Value.{value};
ghost use Rattle.pi_constraints.specs.State.{bindings};
ghost use Rattle.pi_constraints.specs.Store.{ShowsRead};
ghost use Rattle.pi_types.specs.TreeStore.{trees_of, state_of};
ghost use Rattle.pi_terms.specs.BareCells.{bare};
ghost use Rattle.pi_types.specs.TreeStoreRead.{entered_cell, entered_args, turned, IsReadable, StopsAt};

use crate::tree_store::state::{StoredTerm, TreeState};
use pi_atoms::Atoms;
use pi_constraints::{ReadStop, Ref};
use pi_terms::{Term, TermCell, Text};
use std::alloc::{AllocError, Global};

/// The most cells of a term that is read. The number is own.
const MOST_CELLS: usize = 16777216;

impl TreeState {
    /// A term with bindings replaced throughout.
    pub fn read(&self, alloc: Global, atoms: &Atoms, r: Ref) -> Result<Term, ReadStop>
        ensures { (t : Tree) → IsReadable atoms.now self.now r t →
            ShowsRead (value (bindings (state_of (trees_of atoms.now self.now) self.now)) t) result }
    {
        let cells = self.bare_cells(alloc, atoms, r)?;
        Ok(Term::from_bare(cells))
    }

    /// Its cells in prefix order, without the sizes of compounds.
    fn bare_cells(&self, alloc: Global, atoms: &Atoms, r: Ref) -> Result<Vec<TermCell>, ReadStop>
        ensures spelt { IfOk result (λ made. (u : Tree) × (made.items ≡ bare u)) }
        ensures reads { (t : Tree) → IsReadable atoms.now self.now r t →
            MatchResult result (λ made. (made.items ≡ bare (value (bindings (state_of (trees_of atoms.now self.now) self.now)) t)) ×
            (cells (value (bindings (state_of (trees_of atoms.now self.now) self.now)) t) ≤ most_cells))
            (StopsAt (value (bindings (state_of (trees_of atoms.now self.now) self.now)) t)) }
    {
        let mut read = Vec::new(alloc);
        let mut stack = Vec::new(alloc);
        let Ok(()) = stack.push(r) else {
            return Err(ReadStop::Memory);
        };
        while let Some(at) = stack.pop() {
            let last = self.followed(at);
            if self.args(last).len() > MOST_CELLS - 1 - read.len() - stack.len() {
                return Err(ReadStop::TooLarge);
            }
            let Ok(()) = self.enter(alloc, atoms, last, &mut read, &mut stack) else {
                return Err(ReadStop::Memory);
            };
        }
        Ok(read)
    }

    /// Puts the cell of a term behind those that were read, and its arguments on the stack.
    fn enter(
        &self,
        alloc: Global,
        atoms: &Atoms,
        r: Ref,
        read: &mut Vec<TermCell>,
        stack: &mut Vec<Ref>,
    ) -> Result<(), AllocError>
        ensures read { IfOk result (λ _. read.new.items ≡
            read.old.items ++ entered_cell atoms.now (length self.now.variables) (slice_get self.now.terms r.number) ∷ []) }
        ensures stack { IfOk result (λ _. stack.new.items ≡ stack.old.items ++ turned (entered_args (slice_get self.now.terms r.number))) }
    {
        let cell = self.bare_cell(alloc, atoms, r)?;
        read.push(cell)?;
        push_reversed(stack, self.args(r))?;
        Ok(())
    }

    /// The arguments of a term, with no binding followed; none of one that is no compound.
    fn args(&self, r: Ref) -> &[Ref]
        ensures { result.now ≡ entered_args (slice_get self.now.terms r.number) }
    {
        match self.terms.get(r.number as usize) {
            Some(StoredTerm::Comp(_, args, _)) => args.as_slice(),
            _ => &[],
        }
    }

    /// The cell of a term, without its size.
    fn bare_cell(&self, alloc: Global, atoms: &Atoms, r: Ref) -> Result<TermCell, AllocError>
        ensures { IfOk result (λ made. made ≡ entered_cell atoms.now (length self.now.variables) (slice_get self.now.terms r.number)) }
    {
        match self.terms.get(r.number as usize) {
            Some(StoredTerm::Var(n)) => Ok(TermCell::Var(*n)),
            Some(StoredTerm::Int(n)) => Ok(TermCell::Int(*n)),
            Some(StoredTerm::Atom(name)) => {
                let name = Text::new(alloc, atoms.name(*name))?;
                Ok(TermCell::Atom(name))
            }
            Some(StoredTerm::Comp(name, args, _)) => {
                let name = Text::new(alloc, atoms.name(*name))?;
                Ok(TermCell::Comp(name, args.len(), 0))
            }
            None => Ok(TermCell::Var(self.variables.len() as u64)),
        }
    }
}

/// Puts terms on a stack, the first on top.
fn push_reversed(stack: &mut Vec<Ref>, terms: &[Ref]) -> Result<(), AllocError>
    ensures { IfOk result (λ _. stack.new.items ≡ stack.old.items ++ turned terms.now) }
{
    let count = terms.len();
    for k in 0..count {
        stack.push(terms[count - 1 - k])?;
    }
    Ok(())
}
