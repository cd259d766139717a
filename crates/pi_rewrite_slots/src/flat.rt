//! Expressions without a call, and terms whose slots a head fills.
ghost use Rattle.std.specs.Prelude.{◌≡◌};
ghost use Rattle.pi_syntax.specs.ExpTree.{exp_tree, call};
ghost use Rattle.pi_syntax.specs.ExpLists.{exps_of};
ghost use Rattle.pi_rewrite_spec.specs.Values.{is_flat_as as is_flat_tree, are_flat_as as are_flat_trees, is_below as is_below_tree};
ghost use Rattle.pi_rewrite_slots.specs.ReadAs.{reading_of, readings_of};
ghost use Rattle.pi_rewrite_slots.specs.ItemCells.{is_cell_below};

use crate::readings::{Reading, Readings};
use pi_syntax::Exp;
use pi_terms::{Term, TermHead};

/// Whether no call stands in the expression where it is read so, so that its value is the term as it stands.
#[cycle(flatness)]
#[tactic(auto, unfolding(pi_syntax::specs::ExpTree::exp_tree, pi_rewrite_spec::specs::Values::is_flat_as))]
pub fn is_flat(reading: Reading, exp: &Exp) -> bool
    ensures { result ≡ is_flat_tree (reading_of reading) (exp_tree exp.now) }
{
    match exp {
        Exp::Var(_) => true,
        Exp::Int(_) => true,
        Exp::Atom(_) => true,
        Exp::Str(_) => true,
        Exp::List(items, tail) => match tail {
            Some(tail) => {
                are_flat(Readings::Plain, items.as_slice()) & is_flat(Reading::Plain, tail)
            }
            None => are_flat(Readings::Plain, items.as_slice()),
        },
        Exp::Array(items) => are_flat(Readings::Plain, items.as_slice()),
        Exp::Call(name, args) => is_flat_call(reading, name.as_str(), args.as_slice()),
        Exp::Quote(_) => true,
        Exp::Range(first, step, last) => match step {
            Some(step) => {
                reading.is_ranged()
                    & (is_flat(Reading::Plain, first)
                        & (is_flat(Reading::Plain, step) & is_flat(Reading::Plain, last)))
            }
            None => {
                reading.is_ranged()
                    & (is_flat(Reading::Plain, first) & is_flat(Reading::Plain, last))
            }
        },
        _ => false,
    }
}

/// Whether a call stays as a structure, in which no other call stands.
#[cycle(flatness)]
fn is_flat_call(reading: Reading, name: &str, args: &[Exp]) -> bool
    ensures { result ≡ is_flat_tree (reading_of reading) (call name.now (exps_of args.now)) }
{
    if !reading.stays(name, args.len()) {
        return false;
    }
    are_flat(reading.of_parts(name, args.len()), args)
}

/// Whether no call stands in any of the expressions, which are read so.
#[cycle(flatness)]
pub fn are_flat(readings: Readings, exps: &[Exp]) -> bool
    ensures { result ≡ are_flat_trees (readings_of readings) (exps_of exps.now) }
{
    for (i, exp) in exps.iter().enumerate() {
        if !is_flat(readings.at(i), exp) {
            return false;
        }
    }
    true
}

/// Whether each slot of a term has a number below `head`.
pub fn is_below(term: &Term, head: u32) -> bool
    ensures { result ≡ is_below_tree head term.now }
{
    for i in 0..term.cells() {
        if !is_head_below(term.head_at(i), head) {
            return false;
        }
    }
    true
}

/// Whether what stands at a cell is no slot from `head` on.
fn is_head_below(cell: TermHead<'_>, head: u32) -> bool
    ensures { result ≡ is_cell_below head cell.entry }
{
    match cell {
        TermHead::Var(slot) => slot < u64::from(head),
        _ => true,
    }
}
