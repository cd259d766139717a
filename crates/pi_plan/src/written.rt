//! A plan as a term: the list of its actions, written from its first cell to its last.
ghost use Rattle.std.specs.Prelude.{◌≡◌, ◌++◌, ◌∷◌, List, IfOk, map, reverse};
ghost use Rattle.pi_terms.specs.BareCells.{bare};
ghost use Rattle.pi_terms.specs.ListNames.{cell_name};
ghost use Rattle.pi_terms.specs.declared.term.TermCell.{TermCell};
ghost use Rattle.pi_plan.specs.Plan.{plan_term};
ghost use Rattle.pi_plan.specs.Written.{bare_head};

use pi_terms::{Term, TermCell, TermHead, Text};
use std::alloc::{AllocError, Global};

/// The list of these actions, of which the last comes first.
pub(crate) fn list_of(alloc: Global, actions: &[&Term]) -> Result<Term, AllocError>
    ensures { IfOk result (λ plan. plan ≡ plan_term (reverse (map (λ a. a.now) actions.now))) }
{
    let mut cells = Vec::new(alloc);
    let count = actions.len();
    for i in 0..count {
        push_action(&mut cells, alloc, actions[count - 1 - i])?;
    }
    cells.push(TermCell::Atom(Text::new(alloc, "[]")?))?;
    Ok(Term::from_bare(cells))
}

/// Adds the cells of a list's cell and of its first item.
fn push_action(cells: &mut Vec<TermCell>, alloc: Global, action: &Term) -> Result<(), AllocError>
    ensures { IfOk result (λ _. cells.new.items ≡ cells.old.items ++ TermCell.Comp cell_name 2 0 ∷ bare action.now) }
{
    cells.push(TermCell::Comp(Text::new(alloc, "[|]")?, 2, 0))?;
    for i in 0..action.cells() {
        cells.push(bare_cell(alloc, action.head_at(i))?)?;
    }
    Ok(())
}

/// A cell that shows this, without the number of its cells.
fn bare_cell(alloc: Global, head: TermHead<'_>) -> Result<TermCell, AllocError>
    ensures { IfOk result (λ cell. cell ≡ bare_head head.entry) }
{
    match head {
        TermHead::Var(n) => Ok(TermCell::Var(n)),
        TermHead::Int(n) => Ok(TermCell::Int(n)),
        TermHead::Atom(name) => Ok(TermCell::Atom(Text::new(alloc, name)?)),
        TermHead::Comp(name, count) => Ok(TermCell::Comp(Text::new(alloc, name)?, count, 0)),
    }
}
