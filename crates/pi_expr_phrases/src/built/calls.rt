//! Calls.
ghost use Rattle.std.specs.Prelude.{IfOk};
ghost use Rattle.pi_syntax.specs.ExpTree as tree;
ghost use Rattle.pi_syntax.specs.ExpTree.{ExpTree, ExpTrees};
ghost use Rattle.pi_syntax.specs.Grammar.{call_one, call_two};
ghost use Rattle.pi_expr_phrases.specs.Trees.{Shows, ShowsItems};

use crate::built::{Built, over};
use crate::items::Items;
use pi_syntax::Exp;
use pi_terms::Text;
use std::alloc::{AllocError, Global};

/// The call of a name with these arguments.
pub fn call(alloc: Global, name: &str, items: Items) -> Result<Built, AllocError>
    ensures { IfOk result (λ made. (es : ExpTrees) → ShowsItems items es → Shows made (tree.call name.now es)) }
{
    match items {
        Items::Kept(exps, levels) => {
            let name = Text::new(alloc, name)?;
            Ok(over(Exp::Call(name, exps), levels))
        }
        Items::Deep => Ok(Built::Deep),
    }
}

/// The call of a sign with one operand.
pub fn call_of_one(alloc: Global, name: &str, operand: Built) -> Result<Built, AllocError>
    ensures { IfOk result (λ made. (e : ExpTree) → Shows operand e → Shows made (call_one name.now e)) }
{
    let items = Items::one(alloc, operand)?;
    let call = call(alloc, name, items)?;
    Ok(call)
}

/// The call of a sign between two operands.
pub fn call_of_two(
    alloc: Global,
    name: &str,
    left: Built,
    right: Built,
) -> Result<Built, AllocError>
    ensures { IfOk result (λ made. (a b : ExpTree) → Shows left a → Shows right b → Shows made (call_two name.now a b)) }
{
    match Items::first_of(alloc, 2, left) {
        Ok(first) => {
            let items = first.with(right)?;
            let call = call(alloc, name, items)?;
            Ok(call)
        }
        Err(error) => {
            drop(right);
            Err(error)
        }
    }
}
