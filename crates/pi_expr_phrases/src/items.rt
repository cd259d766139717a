//! Trees that were read one after another.
ghost use Rattle.std.specs.Prelude.{◌≡◌, ◌++◌, ◌∷◌, [], OnOk};

use crate::built::Built;
use pi_syntax::{Exp, Exps};
use std::alloc::{AllocError, Global};

/// Trees from the left with the most levels of one, or no more than that one is too deep.
#[derive(Drop)]
pub enum Items {
    Kept(Exps, u32),
    Deep,
}

impl Items {
    ghost use Rattle.std.specs.Prelude.{◌≡◌, IfOk};
    ghost use Rattle.pi_syntax.specs.ExpTree.{ExpTree, ExpTrees, no_exps, one_exp};
    ghost use Rattle.pi_expr_phrases.specs.Machine.{with_exp};
    ghost use Rattle.pi_expr_phrases.specs.Trees.{Shows, ShowsItems, is_none};

    /// No trees.
    pub fn new(alloc: Global) -> Items
        ensures { ShowsItems result no_exps }
    {
        Items::Kept(Vec::new(alloc), 0)
    }

    /// One tree.
    pub fn one(alloc: Global, first: Built) -> Result<Items, AllocError>
        ensures { IfOk result (λ made. (e : ExpTree) → Shows first e → ShowsItems made (one_exp e)) }
    {
        let made = Items::first_of(alloc, 1, first)?;
        Ok(made)
    }

    /// The first of so many trees, with room for all.
    pub fn first_of(alloc: Global, count: usize, first: Built) -> Result<Items, AllocError>
        ensures { IfOk result (λ made. (e : ExpTree) → Shows first e → ShowsItems made (one_exp e)) }
    {
        match Vec::with_capacity(alloc, count) {
            Ok(exps) => {
                let made = Items::Kept(exps, 0).with(first)?;
                Ok(made)
            }
            Err(error) => {
                drop(first);
                Err(error)
            }
        }
    }

    /// These and one more at the end.
    pub fn with(self, last: Built) -> Result<Items, AllocError>
        ensures { IfOk result (λ made. (es : ExpTrees) (e : ExpTree) → ShowsItems self es → Shows last e →
            ShowsItems made (with_exp es e)) }
    {
        match self {
            Items::Kept(exps, levels) => Items::kept(exps, levels, last),
            Items::Deep => {
                drop(last);
                Ok(Items::Deep)
            }
        }
    }

    /// Whether there is none.
    pub fn is_empty(&self) -> bool
        ensures { (es : ExpTrees) → ShowsItems self.now es → result ≡ is_none es }
    {
        match self {
            Items::Kept(exps, _) => exps.is_empty(),
            Items::Deep => false,
        }
    }

    /// Trees and one more at the end.
    fn kept(mut exps: Exps, levels: u32, last: Built) -> Result<Items, AllocError>
        ensures { IfOk result (λ made. (es : ExpTrees) (e : ExpTree) → ShowsItems (Items.Kept exps levels) es → Shows last e →
            ShowsItems made (with_exp es e)) }
    {
        match last {
            Built::Tree(exp, more) => {
                push_exp(&mut exps, exp)?;
                Ok(Items::Kept(exps, levels.max(more)))
            }
            Built::Deep => {
                drop(exps);
                Ok(Items::Deep)
            }
        }
    }
}

/// Adds a tree at the end.
fn push_exp(exps: &mut Exps, exp: Exp) -> Result<(), AllocError>
    ensures { OnOk result (exps.new.items ≡ exps.old.items ++ exp ∷ []) }
{
    if let Err(error) = make_room(exps) {
        drop(exp);
        return Err(error);
    }
    exps.push(exp)?;
    Ok(())
}

/// Makes room for one more, and where there is none, for a quarter of them: most are few and stay as they are, so that room
/// that isn't filled is most of what a program's trees would take.
fn make_room(exps: &mut Exps) -> Result<(), AllocError>
    ensures { exps.new.items ≡ exps.old.items }
{
    let count = exps.len();
    if count < exps.capacity() {
        return Ok(());
    }
    exps.reserve_exact(count / 4 + 1)
}
