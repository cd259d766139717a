//! Conjuncts, branches and blocks.
ghost use Rattle.std.specs.Prelude.{IfOk};
ghost use Rattle.pi_syntax.specs.ExpTree as tree;
ghost use Rattle.pi_syntax.specs.ExpTree.{ExpTree, ExpTrees, ExpBranches};
ghost use Rattle.pi_expr_phrases.specs.Trees.{Shows, ShowsItems, ShowsChoices};

use crate::built::{Built, Pair, WithItems, both, boxed, over, with_items};
use crate::choices::Choices;
use crate::items::Items;
use pi_syntax::Exp;
use std::alloc::{AllocError, Global};

/// A conjunction of these units.
pub fn and(items: Items) -> Built
    ensures { (es : ExpTrees) → ShowsItems items es → Shows result (tree.and es) }
{
    match items {
        Items::Kept(exps, levels) => over(Exp::And(exps), levels),
        Items::Deep => Built::Deep,
    }
}

/// A disjunction of these branches.
pub fn or(items: Items) -> Built
    ensures { (es : ExpTrees) → ShowsItems items es → Shows result (tree.or es) }
{
    match items {
        Items::Kept(exps, levels) => over(Exp::Or(exps), levels),
        Items::Deep => Built::Deep,
    }
}

/// `foreach` with these iterators and conditions.
pub fn foreach(alloc: Global, items: Items, body: Built) -> Result<Built, AllocError>
    ensures { IfOk result (λ made. (es : ExpTrees) (e : ExpTree) → ShowsItems items es → Shows body e → Shows made (tree.foreach es e)) }
{
    match with_items(body, items) {
        WithItems::Kept(exp, exps, levels) => {
            let inner = Box::new(alloc, exp)?;
            Ok(over(Exp::Foreach(exps, inner), levels))
        }
        WithItems::Deep => Ok(Built::Deep),
    }
}

/// `C -> B` before a semicolon.
pub fn arrow(alloc: Global, condition: Built, body: Built) -> Result<Built, AllocError>
    ensures { IfOk result (λ made. (a b : ExpTree) → Shows condition a → Shows body b → Shows made (tree.arrow a b)) }
{
    match both(condition, body) {
        Pair::Kept(first, second, levels) => {
            let boxes = boxed(alloc, first, second)?;
            Ok(over(Exp::Arrow(boxes.first, boxes.second), levels))
        }
        Pair::Deep => Ok(Built::Deep),
    }
}

/// `while (C) B end`.
pub fn while_do(alloc: Global, test: Built, body: Built) -> Result<Built, AllocError>
    ensures { IfOk result (λ made. (a b : ExpTree) → Shows test a → Shows body b → Shows made (tree.while_do a b)) }
{
    match both(test, body) {
        Pair::Kept(first, second, levels) => {
            let boxes = boxed(alloc, first, second)?;
            Ok(over(Exp::While(boxes.first, boxes.second), levels))
        }
        Pair::Deep => Ok(Built::Deep),
    }
}

/// `do B while (C)`.
pub fn do_while(alloc: Global, body: Built, test: Built) -> Result<Built, AllocError>
    ensures { IfOk result (λ made. (a b : ExpTree) → Shows body a → Shows test b → Shows made (tree.do_while a b)) }
{
    match both(body, test) {
        Pair::Kept(first, second, levels) => {
            let boxes = boxed(alloc, first, second)?;
            Ok(over(Exp::DoWhile(boxes.first, boxes.second), levels))
        }
        Pair::Deep => Ok(Built::Deep),
    }
}

/// `if` with no `else`.
pub fn if_then(choices: Choices) -> Built
    ensures { (bs : ExpBranches) → ShowsChoices choices bs → Shows result (tree.if_then bs) }
{
    match choices {
        Choices::Kept(branches, levels) => over(Exp::If(branches, None), levels),
        Choices::Deep => Built::Deep,
    }
}

/// `if` with an `else`.
pub fn if_else(alloc: Global, choices: Choices, last: Built) -> Result<Built, AllocError>
    ensures { IfOk result (λ made. (bs : ExpBranches) (e : ExpTree) → ShowsChoices choices bs → Shows last e →
        Shows made (tree.if_else bs e)) }
{
    match choices {
        Choices::Kept(branches, most) => match last {
            Built::Tree(exp, levels) => {
                let inner = Box::new(alloc, exp)?;
                Ok(over(Exp::If(branches, Some(inner)), most.max(levels)))
            }
            Built::Deep => {
                drop(branches);
                Ok(Built::Deep)
            }
        },
        Choices::Deep => {
            drop(last);
            Ok(Built::Deep)
        }
    }
}
