//! Units between brackets.
ghost use Rattle.std.specs.Prelude.{List, true, false};
ghost use Rattle.pi_syntax.specs.ExpTree.{ExpTree, ExpTrees};
ghost use Rattle.pi_syntax.specs.Terminals as t;
ghost use Rattle.pi_expr_phrases.specs.Machine as machine;
ghost use Rattle.pi_expr_phrases.specs.Shown.{terminals};
ghost use Rattle.pi_expr_phrases.specs.Trees.{Shows, ShowsItems};
ghost use Rattle.pi_expr_phrases.specs.Turns.{ShowsUnits, ShowsTurn, ShowsStep};

use pi_expr_phrases::{Built, Closing, Frame, Items, Mark, Terminals, Turn, behind, closed};
use std::alloc::{AllocError, Global};

/// The step behind one of the units.
pub(crate) fn resume_items<'a>(
    alloc: Global,
    closing: Closing<'a>,
    items: Items,
    built: Built,
    ts: Terminals<'a>,
) -> Result<Turn<'a>, AllocError>
    ensures { (fs : List machine.Frame) (c : machine.Closing) (es : ExpTrees) (e : ExpTree) → ShowsUnits closing.entry items c es →
        Shows built e → ShowsStep result fs (machine.resume (machine.items c es) fs e (terminals ts.entry)) }
{
    match behind(Mark::Comma, ts) {
        Some(rest) => match items.with(built) {
            Ok(more) => Ok(Turn::Open(Frame::Items(closing, more), rest)),
            Err(error) => {
                drop(closing);
                Err(error)
            }
        },
        None => close_items(alloc, closing, items, built, ts),
    }
}

fn close_items<'a>(
    alloc: Global,
    closing: Closing<'a>,
    items: Items,
    built: Built,
    ts: Terminals<'a>,
) -> Result<Turn<'a>, AllocError>
    ensures { (fs : List machine.Frame) (c : machine.Closing) (es : ExpTrees) (e : ExpTree) → ShowsUnits closing.entry items c es →
        Shows built e → ShowsStep result fs (machine.close_items c es fs e (terminals ts.entry)) }
{
    match closing {
        Closing::List => close_list(alloc, items, built, ts),
        Closing::Array => close_array(alloc, items, built, ts),
        Closing::Call(name) => close_by(alloc, Closing::Call(name), items, built, ts),
        Closing::Quote(name) => close_by(alloc, Closing::Quote(name), items, built, ts),
        Closing::Method(name) => close_by(alloc, Closing::Method(name), items, built, ts),
        Closing::Collect(is_array, item) => {
            close_by(alloc, Closing::Collect(is_array, item), items, built, ts)
        }
        Closing::Foreach => close_by(alloc, Closing::Foreach, items, built, ts),
    }
}

fn close_list<'a>(
    alloc: Global,
    items: Items,
    built: Built,
    ts: Terminals<'a>,
) -> Result<Turn<'a>, AllocError>
    ensures { (fs : List machine.Frame) (es : ExpTrees) (e : ExpTree) → ShowsItems items es → Shows built e →
        ShowsStep result fs (machine.close_items machine.of_list es fs e (terminals ts.entry)) }
{
    match behind(Mark::Bar, ts) {
        Some(rest) => {
            let more = items.with(built)?;
            Ok(Turn::Open(Frame::ListTail(more), rest))
        }
        None => close_plain_list(alloc, items, built, ts),
    }
}

fn close_plain_list<'a>(
    alloc: Global,
    items: Items,
    built: Built,
    ts: Terminals<'a>,
) -> Result<Turn<'a>, AllocError>
    ensures { (fs : List machine.Frame) (es : ExpTrees) (e : ExpTree) → ShowsItems items es → Shows built e →
        ShowsStep result fs (machine.choose t.colon (terminals ts.entry) (machine.collect_by false es fs e)
        (machine.choose t.close_bracket (terminals ts.entry)
        (machine.closed fs machine.of_list (machine.with_exp es e)) machine.fail)) }
{
    match behind(Mark::Colon, ts) {
        Some(rest) => Ok(collect_by(alloc, false, items, built, rest)),
        None => close_by(alloc, Closing::List, items, built, ts),
    }
}

fn close_array<'a>(
    alloc: Global,
    items: Items,
    built: Built,
    ts: Terminals<'a>,
) -> Result<Turn<'a>, AllocError>
    ensures { (fs : List machine.Frame) (es : ExpTrees) (e : ExpTree) → ShowsItems items es → Shows built e →
        ShowsStep result fs (machine.close_items machine.of_array es fs e (terminals ts.entry)) }
{
    match behind(Mark::Colon, ts) {
        Some(rest) => Ok(collect_by(alloc, true, items, built, rest)),
        None => close_by(alloc, Closing::Array, items, built, ts),
    }
}

/// A comprehension, behind its `:`: no item stands before the one that was read.
fn collect_by<'a>(
    alloc: Global,
    is_array: bool,
    items: Items,
    built: Built,
    rest: Terminals<'a>,
) -> Turn<'a>
    ensures { (fs : List machine.Frame) (es : ExpTrees) (e : ExpTree) → ShowsItems items es → Shows built e →
        ShowsTurn result fs (machine.collect_by is_array es fs e (terminals rest.entry)) }
{
    if items.is_empty() {
        let closing = Closing::Collect(is_array, built);
        Turn::Open(Frame::Items(closing, Items::new(alloc)), rest)
    } else {
        drop(items);
        drop(built);
        Turn::Fail
    }
}

/// The last unit, where its bracket comes next.
fn close_by<'a>(
    alloc: Global,
    closing: Closing<'a>,
    items: Items,
    built: Built,
    ts: Terminals<'a>,
) -> Result<Turn<'a>, AllocError>
    ensures { (fs : List machine.Frame) (c : machine.Closing) (es : ExpTrees) (e : ExpTree) → ShowsUnits closing.entry items c es →
        Shows built e → ShowsStep result fs (machine.choose (machine.closer c) (terminals ts.entry)
        (machine.closed fs c (machine.with_exp es e)) machine.fail) }
{
    let closer = closing.closer();
    match behind(closer, ts) {
        Some(rest) => match items.with(built) {
            Ok(all) => closed(alloc, closing, all, rest),
            Err(error) => {
                drop(closing);
                Err(error)
            }
        },
        None => {
            drop(closing);
            drop(items);
            drop(built);
            Ok(Turn::Fail)
        }
    }
}
