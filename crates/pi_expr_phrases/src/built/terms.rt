//! Lists, arrays, ranges, indexes, patterns and quoted terms.
ghost use Rattle.std.specs.Prelude.{IfOk};
ghost use Rattle.pi_syntax.specs.ExpTree as tree;
ghost use Rattle.pi_syntax.specs.ExpTree.{ExpTree, ExpTrees, one_exp};
ghost use Rattle.pi_expr_phrases.specs.Trees.{Shows, ShowsItems};

use crate::built::{Built, Pair, WithItems, both, boxed, over, with_items};
use crate::items::Items;
use pi_syntax::Exp;
use pi_terms::Text;
use std::alloc::{AllocError, Global};

/// `[a, b]`.
pub fn list(items: Items) -> Built
    ensures { (es : ExpTrees) → ShowsItems items es → Shows result (tree.list es) }
{
    match items {
        Items::Kept(exps, levels) => over(Exp::List(exps, None), levels),
        Items::Deep => Built::Deep,
    }
}

/// `{a, b}`.
pub fn array(items: Items) -> Built
    ensures { (es : ExpTrees) → ShowsItems items es → Shows result (tree.array es) }
{
    match items {
        Items::Kept(exps, levels) => over(Exp::Array(exps), levels),
        Items::Deep => Built::Deep,
    }
}

/// What stands behind `$`, as it is.
pub fn quote(alloc: Global, of: Built) -> Result<Built, AllocError>
    ensures { IfOk result (λ made. (e : ExpTree) → Shows of e → Shows made (tree.quote e)) }
{
    match of {
        Built::Tree(exp, levels) => {
            let inner = Box::new(alloc, exp)?;
            Ok(over(Exp::Quote(inner), levels))
        }
        Built::Deep => Ok(Built::Deep),
    }
}

/// `V@P`.
pub fn at(alloc: Global, name: &str, pattern: Built) -> Result<Built, AllocError>
    ensures { IfOk result (λ made. (e : ExpTree) → Shows pattern e → Shows made (tree.at name.now e)) }
{
    match pattern {
        Built::Tree(exp, levels) => {
            let inner = Box::new(alloc, exp)?;
            let name = Text::new(alloc, name)?;
            Ok(over(Exp::At(name, inner), levels))
        }
        Built::Deep => Ok(Built::Deep),
    }
}

/// A tree with one index.
pub fn index(alloc: Global, of: Built, at: Built) -> Result<Built, AllocError>
    ensures { IfOk result (λ made. (e i : ExpTree) → Shows of e → Shows at i → Shows made (tree.index e (one_exp i))) }
{
    match Items::one(alloc, at) {
        Ok(items) => match with_items(of, items) {
            WithItems::Kept(exp, exps, levels) => {
                let inner = Box::new(alloc, exp)?;
                Ok(over(Exp::Index(inner, exps), levels))
            }
            WithItems::Deep => Ok(Built::Deep),
        },
        Err(error) => {
            drop(of);
            Err(error)
        }
    }
}

/// `[a, b|T]`.
pub fn list_onto(alloc: Global, items: Items, tail: Built) -> Result<Built, AllocError>
    ensures { IfOk result (λ made. (es : ExpTrees) (e : ExpTree) → ShowsItems items es → Shows tail e → Shows made (tree.list_onto es e)) }
{
    match with_items(tail, items) {
        WithItems::Kept(exp, exps, levels) => {
            let inner = Box::new(alloc, exp)?;
            Ok(over(Exp::List(exps, Some(inner)), levels))
        }
        WithItems::Deep => Ok(Built::Deep),
    }
}

/// A list or an array of an item for each answer of these iterators and conditions.
pub fn collect(
    alloc: Global,
    is_array: bool,
    item: Built,
    items: Items,
) -> Result<Built, AllocError>
    ensures { IfOk result (λ made. (e : ExpTree) (es : ExpTrees) → Shows item e → ShowsItems items es →
        Shows made (tree.collect is_array e es)) }
{
    match with_items(item, items) {
        WithItems::Kept(exp, exps, levels) => {
            let inner = Box::new(alloc, exp)?;
            Ok(over(Exp::Collect(is_array, inner, exps), levels))
        }
        WithItems::Deep => Ok(Built::Deep),
    }
}

/// `a..b`.
pub fn range(alloc: Global, first: Built, last: Built) -> Result<Built, AllocError>
    ensures { IfOk result (λ made. (a b : ExpTree) → Shows first a → Shows last b → Shows made (tree.range a b)) }
{
    match both(first, last) {
        Pair::Kept(first, second, levels) => {
            let boxes = boxed(alloc, first, second)?;
            Ok(over(Exp::Range(boxes.first, None, boxes.second), levels))
        }
        Pair::Deep => Ok(Built::Deep),
    }
}

/// `a..s..b`.
pub fn range_by(alloc: Global, first: Built, step: Built, last: Built) -> Result<Built, AllocError>
    ensures { IfOk result (λ made. (a b c : ExpTree) → Shows first a → Shows step b → Shows last c → Shows made (tree.range_by a b c)) }
{
    match first {
        Built::Tree(first, most) => match both(step, last) {
            Pair::Kept(step, last, levels) => match boxed(alloc, step, last) {
                Ok(boxes) => {
                    let a = Box::new(alloc, first)?;
                    Ok(over(
                        Exp::Range(a, Some(boxes.first), boxes.second),
                        most.max(levels),
                    ))
                }
                Err(error) => {
                    drop(first);
                    Err(error)
                }
            },
            Pair::Deep => {
                drop(first);
                Ok(Built::Deep)
            }
        },
        Built::Deep => {
            drop(step);
            drop(last);
            Ok(Built::Deep)
        }
    }
}
