//! Trees with no children.
ghost use Rattle.std.specs.Prelude.{IfOk};
ghost use Rattle.pi_syntax.specs.ExpTree as tree;
ghost use Rattle.pi_expr_phrases.specs.Trees.{Shows};

use crate::built::Built;
use pi_syntax::{Exp, Integer};
use pi_terms::Text;
use std::alloc::{AllocError, Global};

/// A variable of this name.
pub fn variable(alloc: Global, name: &str) -> Result<Built, AllocError>
    ensures { IfOk result (λ made. Shows made (tree.var name.now)) }
{
    let name = Text::new(alloc, name)?;
    Ok(Built::Tree(Exp::Var(name), 1))
}

/// An atom of this name.
pub fn atom(alloc: Global, name: &str) -> Result<Built, AllocError>
    ensures { IfOk result (λ made. Shows made (tree.atom name.now)) }
{
    let name = Text::new(alloc, name)?;
    Ok(Built::Tree(Exp::Atom(name), 1))
}

/// A string.
pub fn text(alloc: Global, text: &str) -> Result<Built, AllocError>
    ensures { IfOk result (λ made. Shows made (tree.str text.now)) }
{
    let text = Text::new(alloc, text)?;
    Ok(Built::Tree(Exp::Str(text), 1))
}

/// An integer.
pub fn integer(value: i128) -> Built
    ensures { Shows result (tree.int value) }
{
    Built::Tree(Exp::Int(Integer::new(value)), 1)
}
