//! Terms over slots, of expressions as they stand: their cells, in prefix order, before the sizes of compounds are set.
ghost use Rattle.std.specs.Prelude.{◌≡◌, ◌∷◌, ◌++◌, [], IfOk};
ghost use Rattle.pi_terms.specs.Tree.{trees_of};
ghost use Rattle.pi_terms.specs.ListNames.{cell_name};
ghost use Rattle.pi_terms.specs.BareCells.{bare, bare_all};
ghost use Rattle.pi_terms.specs.declared.term.TermCell.{TermCell};
ghost use Rattle.pi_effects.specs.Texts.{text_list};
ghost use Rattle.pi_syntax.specs.ExpTree.{exp_tree};
ghost use Rattle.pi_syntax.specs.ExpLists.{exps_of};
ghost use Rattle.pi_meaning.specs.OverNames.Terms.{items_onto};
ghost use Rattle.pi_rewrite_spec.specs.Slots.{slot_for, slots_for};
ghost use Rattle.pi_rewrite_spec.specs.Values.{slot_term as term_of, slot_terms as terms_of};
ghost use Rattle.pi_rewrite_slots.specs.ItemCells.{cell_of, item_cells, letter_atoms};

use crate::letters::{letter_name, letters};
use crate::slots::Slots;
use crate::steps::both;
use pi_syntax::Exp;
use pi_terms::{Term, TermCell, TermHead, Text};
use std::alloc::{AllocError, Global};

/// The term over slots that an expression is as it stands: calls and signs in it are structures. Of what is no term, as a
/// loop, it is an atom without a name (own).
pub fn slot_term<'a>(alloc: Global, exp: &'a Exp, slots: &mut Slots<'a>) -> Result<Term, AllocError>
    ensures is { IfOk result (λ made. made ≡ (term_of (exp_tree exp.now) slots.old).tree) }
    ensures slots { IfOk result (λ _. slots.new ≡ (term_of (exp_tree exp.now) slots.old).names) }
{
    let mut cells = Vec::new(alloc);
    push_term(&mut cells, alloc, exp, slots)?;
    Ok(Term::from_bare(cells))
}

/// The terms as a list in front of another one.
pub fn list_onto(alloc: Global, items: &[Term], rest: &Term) -> Result<Term, AllocError>
    ensures { IfOk result (λ made. made ≡ items_onto (trees_of items.now) rest.now) }
{
    let mut cells = Vec::new(alloc);
    for item in items {
        push_list_cell(&mut cells, alloc)?;
        push_copy(&mut cells, alloc, item)?;
    }
    push_copy(&mut cells, alloc, rest)?;
    Ok(Term::from_bare(cells))
}

#[cycle(standing)]
#[tactic(auto, unfolding(pi_syntax::specs::ExpTree::exp_tree, pi_rewrite_spec::specs::Values::slot_term, pi_terms::specs::TermCells::flat))]
fn push_term<'a>(
    cells: &mut Vec<TermCell>,
    alloc: Global,
    exp: &'a Exp,
    slots: &mut Slots<'a>,
) -> Result<(), AllocError>
    ensures cells { IfOk result (λ _. cells.new.items ≡ cells.old.items ++ bare (term_of (exp_tree exp.now) slots.old).tree) }
    ensures slots { IfOk result (λ _. slots.new ≡ (term_of (exp_tree exp.now) slots.old).names) }
{
    match exp {
        Exp::Var(name) => push_slot(cells, name.as_str(), slots),
        Exp::Int(value) => push_int(cells, value.value()),
        Exp::Atom(name) => push_atom(cells, alloc, name.as_str()),
        Exp::Str(text) => push_text(cells, alloc, text.as_str()),
        Exp::List(items, tail) => match tail {
            Some(tail) => both(
                push_items(cells, alloc, items.as_slice(), slots),
                push_term(cells, alloc, tail, slots),
            ),
            None => both(
                push_items(cells, alloc, items.as_slice(), slots),
                push_atom(cells, alloc, "[]"),
            ),
        },
        Exp::Array(items) => both(
            push_compound(cells, alloc, "{}", items.len()),
            push_terms(cells, alloc, items.as_slice(), slots),
        ),
        Exp::Call(name, args) => both(
            push_compound(cells, alloc, name.as_str(), args.len()),
            push_terms(cells, alloc, args.as_slice(), slots),
        ),
        Exp::Quote(inner) => push_term(cells, alloc, inner, slots),
        Exp::Range(first, step, last) => match step {
            Some(step) => both(
                both(
                    push_compound(cells, alloc, "..", 3),
                    push_term(cells, alloc, first, slots),
                ),
                both(
                    push_term(cells, alloc, step, slots),
                    push_term(cells, alloc, last, slots),
                ),
            ),
            None => both(
                both(
                    push_compound(cells, alloc, "..", 2),
                    push_term(cells, alloc, first, slots),
                ),
                push_term(cells, alloc, last, slots),
            ),
        },
        Exp::Index(_, _) => push_nameless(cells, alloc),
        Exp::At(_, _) => push_nameless(cells, alloc),
        Exp::Collect(_, _, _) => push_nameless(cells, alloc),
        Exp::And(_) => push_nameless(cells, alloc),
        Exp::Or(_) => push_nameless(cells, alloc),
        Exp::Arrow(_, _) => push_nameless(cells, alloc),
        Exp::If(_, _) => push_nameless(cells, alloc),
        Exp::Foreach(_, _) => push_nameless(cells, alloc),
        Exp::While(_, _) => push_nameless(cells, alloc),
        Exp::DoWhile(_, _) => push_nameless(cells, alloc),
    }
}

#[cycle(standing)]
fn push_terms<'a>(
    cells: &mut Vec<TermCell>,
    alloc: Global,
    exps: &'a [Exp],
    slots: &mut Slots<'a>,
) -> Result<(), AllocError>
    ensures cells { IfOk result (λ _. cells.new.items ≡
        cells.old.items ++ bare_all (trees_of (terms_of (exps_of exps.now) slots.old).trees)) }
    ensures slots { IfOk result (λ _. slots.new ≡ (terms_of (exps_of exps.now) slots.old).names) }
{
    for exp in exps {
        push_term(cells, alloc, exp, slots)?;
    }
    Ok(())
}

/// Terms that are items of a list, each behind a list's cell.
#[cycle(standing)]
fn push_items<'a>(
    cells: &mut Vec<TermCell>,
    alloc: Global,
    exps: &'a [Exp],
    slots: &mut Slots<'a>,
) -> Result<(), AllocError>
    ensures cells { IfOk result (λ _. cells.new.items ≡
        cells.old.items ++ item_cells (trees_of (terms_of (exps_of exps.now) slots.old).trees)) }
    ensures slots { IfOk result (λ _. slots.new ≡ (terms_of (exps_of exps.now) slots.old).names) }
{
    for exp in exps {
        push_list_cell(cells, alloc)?;
        push_term(cells, alloc, exp, slots)?;
    }
    Ok(())
}

/// The slot of an occurrence of a name.
fn push_slot<'a>(
    cells: &mut Vec<TermCell>,
    name: &'a str,
    slots: &mut Slots<'a>,
) -> Result<(), AllocError>
    ensures cells { IfOk result (λ _. cells.new.items ≡ cells.old.items ++ TermCell.Var (slot_for name.now slots.old) ∷ []) }
    ensures slots { IfOk result (λ _. slots.new ≡ slots_for name.now slots.old) }
{
    let slot = slots.slot_for(name)?;
    cells.push(TermCell::Var(u64::from(slot)))?;
    Ok(())
}

fn push_int(cells: &mut Vec<TermCell>, value: i128) -> Result<(), AllocError>
    ensures { IfOk result (λ _. cells.new.items ≡ cells.old.items ++ TermCell.Int value ∷ []) }
{
    cells.push(TermCell::Int(value))?;
    Ok(())
}

/// A text as the list of its characters.
fn push_text(cells: &mut Vec<TermCell>, alloc: Global, text: &str) -> Result<(), AllocError>
    ensures { IfOk result (λ _. cells.new.items ≡ cells.old.items ++ bare (text_list text.now)) }
{
    let letters = letters(alloc, text)?;
    push_letters(cells, alloc, letters.as_slice())?;
    push_atom(cells, alloc, "[]")
}

/// Characters as items of a list.
fn push_letters(
    cells: &mut Vec<TermCell>,
    alloc: Global,
    letters: &[char],
) -> Result<(), AllocError>
    ensures { IfOk result (λ _. cells.new.items ≡ cells.old.items ++ item_cells (letter_atoms letters.now)) }
{
    for letter in letters {
        push_list_cell(cells, alloc)?;
        let name = letter_name(alloc, *letter)?;
        cells.push(TermCell::Atom(name))?;
    }
    Ok(())
}

/// The cells of a term.
fn push_copy(cells: &mut Vec<TermCell>, alloc: Global, term: &Term) -> Result<(), AllocError>
    ensures { IfOk result (λ _. cells.new.items ≡ cells.old.items ++ bare term.now) }
{
    for i in 0..term.cells() {
        cells.push(bare_cell(alloc, term.head_at(i))?)?;
    }
    Ok(())
}

/// A cell that shows this, without the number of its cells.
fn bare_cell(alloc: Global, head: TermHead<'_>) -> Result<TermCell, AllocError>
    ensures { IfOk result (λ made. made ≡ cell_of head.entry) }
{
    match head {
        TermHead::Var(n) => Ok(TermCell::Var(n)),
        TermHead::Int(n) => Ok(TermCell::Int(n)),
        TermHead::Atom(name) => Ok(TermCell::Atom(Text::new(alloc, name)?)),
        TermHead::Comp(name, count) => Ok(TermCell::Comp(Text::new(alloc, name)?, count, 0)),
    }
}

fn push_list_cell(cells: &mut Vec<TermCell>, alloc: Global) -> Result<(), AllocError>
    ensures { IfOk result (λ _. cells.new.items ≡ cells.old.items ++ TermCell.Comp cell_name 2 0 ∷ []) }
{
    push_compound(cells, alloc, "[|]", 2)
}

/// The cell of a compound.
fn push_compound(
    cells: &mut Vec<TermCell>,
    alloc: Global,
    name: &str,
    count: usize,
) -> Result<(), AllocError>
    ensures { IfOk result (λ _. cells.new.items ≡ cells.old.items ++ TermCell.Comp name.now count 0 ∷ []) }
{
    let name = Text::new(alloc, name)?;
    cells.push(TermCell::Comp(name, count, 0))?;
    Ok(())
}

fn push_atom(cells: &mut Vec<TermCell>, alloc: Global, name: &str) -> Result<(), AllocError>
    ensures { IfOk result (λ _. cells.new.items ≡ cells.old.items ++ TermCell.Atom name.now ∷ []) }
{
    let name = Text::new(alloc, name)?;
    cells.push(TermCell::Atom(name))?;
    Ok(())
}

/// What stands for what is no term.
fn push_nameless(cells: &mut Vec<TermCell>, alloc: Global) -> Result<(), AllocError>
    ensures { IfOk result (λ _. cells.new.items ≡ cells.old.items ++ TermCell.Atom [] ∷ []) }
{
    push_atom(cells, alloc, "")
}
