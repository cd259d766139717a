//! Behind a unit, a branch or what follows an arrow.
ghost use Rattle.std.specs.Prelude.{false, List, None, Some};
ghost use Rattle.pi_syntax.specs.ExpTree.{ExpTree, ExpTrees};
ghost use Rattle.pi_syntax.specs.ExpTree as tree;
ghost use Rattle.pi_syntax.specs.Grammar.{branch};
ghost use Rattle.pi_syntax.specs.Terminals as t;
ghost use Rattle.pi_expr_phrases.specs.Machine as machine;
ghost use Rattle.pi_expr_phrases.specs.Shown.{terminals};
ghost use Rattle.pi_expr_phrases.specs.Trees.{Shows, ShowsItems};
ghost use Rattle.pi_expr_phrases.specs.Turns.{ShowsTurn, ShowsStep};

use pi_expr_phrases::{
    Built, Frame, Items, Mark, Phrase, Terminals, Turn, behind, built, starts_with,
};
use std::alloc::{AllocError, Global};

pub(crate) fn conjuncts<'a>(
    items: Items,
    built: Built,
    ts: Terminals<'a>,
) -> Result<Turn<'a>, AllocError>
    ensures { (fs : List machine.Frame) (a : ExpTree) (es : ExpTrees) (e : ExpTree) → ShowsItems items (tree.exp a es) →
        Shows built e → ShowsStep result fs (machine.resume (machine.conjuncts (tree.exp a es)) fs e (terminals ts.entry)) }
{
    let more = items.with(built)?;
    match behind(Mark::Comma, ts) {
        Some(rest) => Ok(Turn::Open(Frame::Conjuncts(more), rest)),
        None => Ok(Turn::Found(Phrase::Conj, false, built::and(more), ts)),
    }
}

pub(crate) fn branches<'a>(
    items: Items,
    built: Built,
    ts: Terminals<'a>,
) -> Result<Turn<'a>, AllocError>
    ensures { (fs : List machine.Frame) (a : ExpTree) (es : ExpTrees) (e : ExpTree) → ShowsItems items (tree.exp a es) →
        Shows built e → ShowsStep result fs (machine.resume (machine.branches (tree.exp a es)) fs e (terminals ts.entry)) }
{
    let more = items.with(built)?;
    match behind(Mark::Semicolon, ts) {
        Some(rest) => Ok(Turn::Open(Frame::Branches(more), rest)),
        None => Ok(Turn::Found(Phrase::Exp, false, built::or(more), ts)),
    }
}

pub(crate) fn arrow<'a>(
    alloc: Global,
    condition: Built,
    built: Built,
    ts: Terminals<'a>,
) -> Result<Turn<'a>, AllocError>
    ensures { (fs : List machine.Frame) (a : ExpTree) (e : ExpTree) → Shows condition a → Shows built e →
        ShowsStep result fs (machine.resume (machine.arrow a) fs e (terminals ts.entry)) }
{
    let arrow = built::arrow(alloc, condition, built)?;
    Ok(before_semicolon(arrow, ts))
}

/// An arrow, which stands only before another branch.
fn before_semicolon<'a>(arrow: Built, ts: Terminals<'a>) -> Turn<'a>
    ensures { (fs : List machine.Frame) (e : ExpTree) → Shows arrow e →
        ShowsTurn result fs (machine.when (machine.headed t.semicolon (terminals ts.entry))
        (machine.next (machine.value fs branch false e (terminals ts.entry)))) }
{
    if starts_with(Mark::Semicolon, ts) {
        Turn::Found(Phrase::Branch, false, arrow, ts)
    } else {
        drop(arrow);
        Turn::Fail
    }
}
