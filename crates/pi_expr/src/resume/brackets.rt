//! Behind what stands between brackets, and behind a pattern.
ghost use Rattle.std.specs.Prelude.{true, List, None, Some, if◌then◌else◌, IfOk};
ghost use Rattle.pi_syntax.specs.ExpTree.{ExpTree, ExpTrees};
ghost use Rattle.pi_syntax.specs.ExpTree as tree;
ghost use Rattle.pi_syntax.specs.Grammar.{post};
ghost use Rattle.pi_syntax.specs.Terminals as t;
ghost use Rattle.pi_expr_phrases.specs.Machine as machine;
ghost use Rattle.pi_expr_phrases.specs.Shown.{terminals};
ghost use Rattle.pi_expr_phrases.specs.Trees.{Shows, ShowsItems};
ghost use Rattle.pi_expr_phrases.specs.Turns.{ShowsTurn, ShowsStep};

use crate::made::{read_as, read_before};
use pi_expr_phrases::{Built, Frame, Items, Mark, Phrase, Terminals, Turn, behind, built};
use std::alloc::{AllocError, Global};

pub(crate) fn pattern<'a>(
    alloc: Global,
    name: &'a str,
    built: Built,
    ts: Terminals<'a>,
) -> Result<Turn<'a>, AllocError>
    ensures { (fs : List machine.Frame) (e : ExpTree) → Shows built e →
        ShowsStep result fs (machine.resume (machine.pattern name.now) fs e (terminals ts.entry)) }
{
    read_as(Phrase::Prim, built::at(alloc, name, built), ts)
}

pub(crate) fn parens<'a>(
    alloc: Global,
    quoted: bool,
    built: Built,
    ts: Terminals<'a>,
) -> Result<Turn<'a>, AllocError>
    ensures { (fs : List machine.Frame) (e : ExpTree) → Shows built e →
        ShowsStep result fs (machine.resume (machine.parens quoted) fs e (terminals ts.entry)) }
{
    read_before(Mark::CloseParen, in_parens(alloc, quoted, built), ts)
}

/// What parentheses give: no node, save behind `$`.
fn in_parens(alloc: Global, quoted: bool, built: Built) -> Result<Built, AllocError>
    ensures { IfOk result (λ made. (e : ExpTree) → Shows built e → Shows made (if quoted then tree.quote e else e)) }
{
    if quoted {
        built::quote(alloc, built)
    } else {
        Ok(built)
    }
}

pub(crate) fn list_tail<'a>(
    alloc: Global,
    items: Items,
    built: Built,
    ts: Terminals<'a>,
) -> Result<Turn<'a>, AllocError>
    ensures { (fs : List machine.Frame) (es : ExpTrees) (e : ExpTree) → ShowsItems items es → Shows built e →
        ShowsStep result fs (machine.resume (machine.list_tail es) fs e (terminals ts.entry)) }
{
    read_before(
        Mark::CloseBracket,
        built::list_onto(alloc, items, built),
        ts,
    )
}

/// Behind an index: each makes a tree of its own.
pub(crate) fn indexing<'a>(
    alloc: Global,
    of: Built,
    built: Built,
    ts: Terminals<'a>,
) -> Result<Turn<'a>, AllocError>
    ensures { (fs : List machine.Frame) (a : ExpTree) (e : ExpTree) → Shows of a → Shows built e →
        ShowsStep result fs (machine.resume (machine.indexing a) fs e (terminals ts.entry)) }
{
    let index = built::index(alloc, of, built)?;
    match behind(Mark::Comma, ts) {
        Some(rest) => Ok(Turn::Open(Frame::Indexing(index), rest)),
        None => Ok(close_index(index, ts)),
    }
}

fn close_index<'a>(index: Built, ts: Terminals<'a>) -> Turn<'a>
    ensures { (fs : List machine.Frame) (e : ExpTree) → Shows index e →
        ShowsTurn result fs (machine.choose t.close_bracket (terminals ts.entry)
        (λ rest. machine.next (machine.value fs post true e rest)) machine.fail) }
{
    match behind(Mark::CloseBracket, ts) {
        Some(rest) => Turn::Found(Phrase::Post, true, index, rest),
        None => {
            drop(index);
            Turn::Fail
        }
    }
}
