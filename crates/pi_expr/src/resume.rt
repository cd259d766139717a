//! The step behind the operand of an open phrase.
ghost use Rattle.std.specs.Prelude.{List};
ghost use Rattle.pi_syntax.specs.ExpTree.{ExpTree};
ghost use Rattle.pi_expr_phrases.specs.Machine as machine;
ghost use Rattle.pi_expr_phrases.specs.Shown.{terminals};
ghost use Rattle.pi_expr_phrases.specs.Trees.{Shows};
ghost use Rattle.pi_expr_phrases.specs.Turns.{ShowsFrame, ShowsStep};

mod brackets;
mod operators;
mod units;

use crate::blocks;
use crate::close::resume_items;
use crate::resume::brackets::{indexing, list_tail, parens, pattern};
use crate::resume::operators::{joining, minus, power, range_from, range_step, relation, signed};
use crate::resume::units::{arrow, branches, conjuncts};
use pi_expr_phrases::{Built, Frame, Items, Terminals, Turn};
use std::alloc::{AllocError, Global};

/// The step behind the operand of an open phrase.
pub fn resume<'a>(
    alloc: Global,
    frame: Frame<'a>,
    built: Built,
    ts: Terminals<'a>,
) -> Result<Turn<'a>, AllocError>
    ensures { (fs : List machine.Frame) (f : machine.Frame) (e : ExpTree) → ShowsFrame frame.entry f → Shows built e →
        ShowsStep result fs (machine.resume f fs e (terminals ts.entry)) }
{
    match frame {
        Frame::Signed(phrase, name) => signed(alloc, phrase, name, built, ts),
        Frame::Minus(start) => minus(alloc, start, built, ts),
        Frame::Joining(line, name, left) => joining(alloc, line, name, left, built, ts),
        Frame::Relation(name, left) => relation(alloc, name, left, built, ts),
        Frame::RangeFrom(first) => range_from(alloc, first, built, ts),
        Frame::RangeStep(first, step) => range_step(alloc, first, step, built, ts),
        Frame::Power(base) => power(alloc, base, built, ts),
        Frame::Conjuncts(items) => conjuncts(items, built, ts),
        Frame::Branches(items) => branches(items, built, ts),
        Frame::Arrow(condition) => arrow(alloc, condition, built, ts),
        Frame::Pattern(name) => pattern(alloc, name, built, ts),
        Frame::Parens(quoted) => parens(alloc, quoted, built, ts),
        Frame::Items(closing, items) => resume_items(alloc, closing, items, built, ts),
        Frame::ListTail(items) => list_tail(alloc, items, built, ts),
        Frame::Indexing(of) => indexing(alloc, of, built, ts),
        Frame::ForeachBody(items) => blocks::foreach_body(alloc, items, built, ts),
        Frame::WhileTest => Ok(blocks::while_test(built, ts)),
        Frame::WhileBody(test) => blocks::while_body(alloc, test, built, ts),
        Frame::DoBody => Ok(blocks::do_body(built, ts)),
        Frame::DoTest(body) => blocks::do_test(alloc, body, built, ts),
        Frame::IfTest(choices) => Ok(blocks::if_test(choices, built, ts)),
        Frame::IfBody(choices, condition) => blocks::if_body(choices, condition, built, ts),
        Frame::IfLast(choices) => blocks::if_last(alloc, choices, built, ts),
    }
}
