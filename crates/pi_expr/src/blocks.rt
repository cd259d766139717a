//! The steps behind the operands of blocks.
ghost use Rattle.std.specs.Prelude.{List};
ghost use Rattle.pi_syntax.specs.ExpTree.{ExpTree, ExpTrees, ExpBranches};
ghost use Rattle.pi_syntax.specs.ExpTree as tree;
ghost use Rattle.pi_syntax.specs.Terminals as t;
ghost use Rattle.pi_expr_phrases.specs.Machine as machine;
ghost use Rattle.pi_expr_phrases.specs.Shown.{terminals};
ghost use Rattle.pi_expr_phrases.specs.Trees.{Shows, ShowsItems, ShowsChoices};
ghost use Rattle.pi_expr_phrases.specs.Turns.{ShowsTurn, ShowsStep};

use crate::made::read_before;
use pi_expr_phrases::{
    Built, Choices, Frame, Items, Mark, Terminals, Turn, behind, built, found_behind, open_behind,
};
use std::alloc::{AllocError, Global};

pub(crate) fn foreach_body<'a>(
    alloc: Global,
    items: Items,
    built: Built,
    ts: Terminals<'a>,
) -> Result<Turn<'a>, AllocError>
    ensures { (fs : List machine.Frame) (es : ExpTrees) (e : ExpTree) → ShowsItems items es → Shows built e →
        ShowsStep result fs (machine.resume (machine.foreach_body es) fs e (terminals ts.entry)) }
{
    read_before(Mark::End, built::foreach(alloc, items, built), ts)
}

pub(crate) fn while_test<'a>(built: Built, ts: Terminals<'a>) -> Turn<'a>
    ensures { (fs : List machine.Frame) (e : ExpTree) → Shows built e →
        ShowsTurn result fs (machine.resume machine.while_test fs e (terminals ts.entry)) }
{
    open_behind(Mark::CloseParen, Frame::WhileBody(built), ts)
}

pub(crate) fn while_body<'a>(
    alloc: Global,
    test: Built,
    built: Built,
    ts: Terminals<'a>,
) -> Result<Turn<'a>, AllocError>
    ensures { (fs : List machine.Frame) (a : ExpTree) (e : ExpTree) → Shows test a → Shows built e →
        ShowsStep result fs (machine.resume (machine.while_body a) fs e (terminals ts.entry)) }
{
    read_before(Mark::End, built::while_do(alloc, test, built), ts)
}

pub(crate) fn do_body<'a>(built: Built, ts: Terminals<'a>) -> Turn<'a>
    ensures { (fs : List machine.Frame) (e : ExpTree) → Shows built e →
        ShowsTurn result fs (machine.resume machine.do_body fs e (terminals ts.entry)) }
{
    match behind(Mark::While, ts) {
        Some(rest) => open_behind(Mark::OpenParen, Frame::DoTest(built), rest),
        None => {
            drop(built);
            Turn::Fail
        }
    }
}

pub(crate) fn do_test<'a>(
    alloc: Global,
    body: Built,
    built: Built,
    ts: Terminals<'a>,
) -> Result<Turn<'a>, AllocError>
    ensures { (fs : List machine.Frame) (a : ExpTree) (e : ExpTree) → Shows body a → Shows built e →
        ShowsStep result fs (machine.resume (machine.do_test a) fs e (terminals ts.entry)) }
{
    read_before(Mark::CloseParen, built::do_while(alloc, body, built), ts)
}

pub(crate) fn if_test<'a>(choices: Choices, built: Built, ts: Terminals<'a>) -> Turn<'a>
    ensures { (fs : List machine.Frame) (bs : ExpBranches) (e : ExpTree) → ShowsChoices choices bs → Shows built e →
        ShowsTurn result fs (machine.resume (machine.if_test bs) fs e (terminals ts.entry)) }
{
    open_behind(Mark::Then, Frame::IfBody(choices, built), ts)
}

pub(crate) fn if_body<'a>(
    choices: Choices,
    condition: Built,
    built: Built,
    ts: Terminals<'a>,
) -> Result<Turn<'a>, AllocError>
    ensures { (fs : List machine.Frame) (bs : ExpBranches) (a : ExpTree) (e : ExpTree) → ShowsChoices choices bs →
        Shows condition a → Shows built e → ShowsStep result fs (machine.resume (machine.if_body bs a) fs e (terminals ts.entry)) }
{
    let more = choices.with(condition, built)?;
    match behind(Mark::ElseIf, ts) {
        Some(rest) => Ok(Turn::Open(Frame::IfTest(more), rest)),
        None => Ok(no_elseif(more, ts)),
    }
}

fn no_elseif<'a>(choices: Choices, ts: Terminals<'a>) -> Turn<'a>
    ensures { (fs : List machine.Frame) (bs : ExpBranches) → ShowsChoices choices bs →
        ShowsTurn result fs (machine.choose t.word_else (terminals ts.entry) (machine.opened (machine.if_last bs) fs)
        (machine.choose t.word_end (terminals ts.entry) (machine.found fs (tree.if_then bs)) machine.fail)) }
{
    match behind(Mark::Else, ts) {
        Some(rest) => Turn::Open(Frame::IfLast(choices), rest),
        None => no_else(choices, ts),
    }
}

fn no_else<'a>(choices: Choices, ts: Terminals<'a>) -> Turn<'a>
    ensures { (fs : List machine.Frame) (bs : ExpBranches) → ShowsChoices choices bs →
        ShowsTurn result fs (machine.choose t.word_end (terminals ts.entry) (machine.found fs (tree.if_then bs)) machine.fail) }
{
    found_behind(Mark::End, built::if_then(choices), ts)
}

pub(crate) fn if_last<'a>(
    alloc: Global,
    choices: Choices,
    built: Built,
    ts: Terminals<'a>,
) -> Result<Turn<'a>, AllocError>
    ensures { (fs : List machine.Frame) (bs : ExpBranches) (e : ExpTree) → ShowsChoices choices bs → Shows built e →
        ShowsStep result fs (machine.resume (machine.if_last bs) fs e (terminals ts.entry)) }
{
    read_before(Mark::End, built::if_else(alloc, choices, built), ts)
}
