//! Trees with their levels.
ghost use Rattle.std.specs.Prelude.{◌≡◌, suc, IfOk};
ghost use Rattle.pi_syntax.specs.ExpTree.{ExpTree, ExpTrees, exp_tree, levels};
ghost use Rattle.pi_syntax.specs.Grammar.{is_atom};
ghost use Rattle.pi_expr_phrases.specs.Trees.{Shows, ShowsItems, ShowsPair, ShowsWithItems};

mod calls;
mod control;
mod leaves;
mod terms;

use crate::items::Items;
pub use calls::{call, call_of_one, call_of_two};
pub use control::{and, arrow, do_while, foreach, if_else, if_then, or, while_do};
pub use leaves::{atom, integer, text, variable};
use pi_syntax::{Exp, Exps};
use std::alloc::{AllocError, Global};
pub use terms::{array, at, collect, index, list, list_onto, quote, range, range_by};

/// The most levels of a tree.
const MOST_LEVELS: u32 = 1_000;

/// A tree that was read with its levels, or no more than that it is too deep.
#[derive(Drop)]
pub enum Built {
    Tree(Exp, u32),
    Deep,
}

/// The tree whose children have so many levels at most.
fn over(exp: Exp, below: u32) -> Built
    ensures { (e : ExpTree) → exp_tree exp ≡ e → levels e ≡ suc below → Shows result e }
{
    if below < MOST_LEVELS {
        Built::Tree(exp, below + 1)
    } else {
        drop(exp);
        Built::Deep
    }
}

/// Two trees with the most levels of one, or no more than that one is too deep.
#[derive(Drop)]
pub(crate) enum Pair {
    Kept(Exp, Exp, u32),
    Deep,
}

/// A tree and items with the most levels of one, or no more than that one is too deep.
#[derive(Drop)]
enum WithItems {
    Kept(Exp, Exps, u32),
    Deep,
}

/// Two trees on the heap.
#[derive(Drop)]
pub(crate) struct Boxes {
    first: Box<Exp>,
    second: Box<Exp>,
}

/// Both trees on the heap.
fn boxed(alloc: Global, first: Exp, second: Exp) -> Result<Boxes, AllocError>
    ensures { IfOk result (λ boxes. (exp_tree boxes.first.value ≡ exp_tree first) × (exp_tree boxes.second.value ≡ exp_tree second)) }
{
    match Box::new(alloc, first) {
        Ok(first) => {
            let second = Box::new(alloc, second)?;
            Ok(Boxes { first, second })
        }
        Err(error) => {
            drop(second);
            Err(error.into())
        }
    }
}

/// Both trees.
pub(crate) fn both(first: Built, second: Built) -> Pair
    ensures { (a b : ExpTree) → Shows first a → Shows second b → ShowsPair result a b }
{
    match first {
        Built::Tree(first, levels) => match second {
            Built::Tree(second, more) => Pair::Kept(first, second, levels.max(more)),
            Built::Deep => {
                drop(first);
                drop(second);
                Pair::Deep
            }
        },
        Built::Deep => {
            drop(first);
            drop(second);
            Pair::Deep
        }
    }
}

/// A tree and items.
fn with_items(first: Built, items: Items) -> WithItems
    ensures { (a : ExpTree) (es : ExpTrees) → Shows first a → ShowsItems items es → ShowsWithItems result a es }
{
    match first {
        Built::Tree(first, levels) => match items {
            Items::Kept(exps, more) => WithItems::Kept(first, exps, levels.max(more)),
            Items::Deep => {
                drop(first);
                drop(items);
                WithItems::Deep
            }
        },
        Built::Deep => {
            drop(first);
            drop(items);
            WithItems::Deep
        }
    }
}

impl Built {
    ghost use Rattle.std.specs.Prelude.{◌≡◌};
    ghost use Rattle.pi_syntax.specs.ExpTree.{ExpTree};
    ghost use Rattle.pi_syntax.specs.Grammar.{is_atom};
    ghost use Rattle.pi_expr_phrases.specs.Trees.{Shows};

    /// Whether the tree is an atom.
    pub fn is_atom(&self) -> bool
        ensures { (e : ExpTree) → Shows self.now e → result ≡ is_atom e }
    {
        match self {
            Built::Tree(exp, _) => is_atom(exp),
            Built::Deep => false,
        }
    }
}

fn is_atom(exp: &Exp) -> bool
    ensures { result ≡ is_atom (exp_tree exp.now) }
{
    match exp {
        Exp::Atom(_) => true,
        _ => false,
    }
}
