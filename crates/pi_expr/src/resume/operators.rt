//! Behind the operand of a sign, of a relation, of a power or of a range.
ghost use Rattle.std.specs.Prelude.{◌≡◌, false, List, ◌∷◌, None, Some, MatchOption, IfOk};
ghost use Rattle.pi_syntax.specs.ExpTree.{ExpTree};
ghost use Rattle.pi_syntax.specs.Grammar.{negated, integer_alone};
ghost use Rattle.pi_syntax.specs.Terminals.{integer};
ghost use Rattle.pi_expr_phrases.specs.Machine as machine;
ghost use Rattle.pi_expr_phrases.specs.Shown.{line_shown, phrase_shown, terminals};
ghost use Rattle.pi_expr_phrases.specs.Trees.{Shows};
ghost use Rattle.pi_expr_phrases.specs.Turns.{ShowsStep};

use crate::made::read_as;
use pi_expr_phrases::{
    Ahead, Built, Frame, Line, Mark, Natural, Phrase, Terminal, Terminals, Turn, behind, built,
    front,
};
use std::alloc::{AllocError, Global};

pub(crate) fn signed<'a>(
    alloc: Global,
    phrase: Phrase,
    name: &'a str,
    built: Built,
    ts: Terminals<'a>,
) -> Result<Turn<'a>, AllocError>
    ensures { (fs : List machine.Frame) (e : ExpTree) → Shows built e →
        ShowsStep result fs (machine.resume (machine.signed (phrase_shown phrase) name.now) fs e (terminals ts.entry)) }
{
    read_as(phrase, built::call_of_one(alloc, name, built), ts)
}

pub(crate) fn minus<'a>(
    alloc: Global,
    start: Terminals<'a>,
    built: Built,
    ts: Terminals<'a>,
) -> Result<Turn<'a>, AllocError>
    ensures { (fs : List machine.Frame) (e : ExpTree) → Shows built e →
        ShowsStep result fs (machine.resume (machine.minus (terminals start.entry)) fs e (terminals ts.entry)) }
{
    read_as(Phrase::Unary, negated(alloc, start, built, ts), ts)
}

/// `-` before an operand: a negative integer where the operand is an integer alone.
fn negated<'a>(
    alloc: Global,
    start: Terminals<'a>,
    built: Built,
    ts: Terminals<'a>,
) -> Result<Built, AllocError>
    ensures { IfOk result (λ made. (e : ExpTree) → Shows built e →
        Shows made (negated (integer_alone (terminals start.entry) (terminals ts.entry)) e)) }
{
    match integer_alone(start, ts) {
        Some(natural) => {
            drop(built);
            Ok(built::integer(natural.negated()))
        }
        None => { built::call_of_one(alloc, "-", built) }
    }
}

/// The integer that is all that stands before the rest.
fn integer_alone<'a>(start: Terminals<'a>, ts: Terminals<'a>) -> Option<Natural>
    ensures { MatchOption result (integer_alone (terminals start.entry) (terminals ts.entry) ≡ None)
        (λ n. integer_alone (terminals start.entry) (terminals ts.entry) ≡ Some n.value) }
{
    match front(start) {
        Ahead::Next(first, rest) => match first {
            Terminal::Integer(natural) => alone(natural, rest, ts),
            _ => None,
        },
        Ahead::End => None,
    }
}

/// The integer, where nothing stands between it and the rest.
fn alone<'a>(natural: Natural, behind: Terminals<'a>, ts: Terminals<'a>) -> Option<Natural>
    ensures { MatchOption result (integer_alone (integer natural.value ∷ terminals behind.entry) (terminals ts.entry) ≡ None)
        (λ n. integer_alone (integer natural.value ∷ terminals behind.entry) (terminals ts.entry) ≡ Some n.value) }
{
    if behind.len() == ts.len() {
        Some(natural)
    } else {
        None
    }
}

pub(crate) fn joining<'a>(
    alloc: Global,
    line: Line,
    name: &'a str,
    left: Built,
    built: Built,
    ts: Terminals<'a>,
) -> Result<Turn<'a>, AllocError>
    ensures { (fs : List machine.Frame) (a : ExpTree) (e : ExpTree) → Shows left a → Shows built e →
        ShowsStep result fs (machine.resume (machine.joining (line_shown line) name.now a) fs e (terminals ts.entry)) }
{
    read_as(
        Phrase::Line(line),
        built::call_of_two(alloc, name, left, built),
        ts,
    )
}

pub(crate) fn relation<'a>(
    alloc: Global,
    name: &'a str,
    left: Built,
    built: Built,
    ts: Terminals<'a>,
) -> Result<Turn<'a>, AllocError>
    ensures { (fs : List machine.Frame) (a : ExpTree) (e : ExpTree) → Shows left a → Shows built e →
        ShowsStep result fs (machine.resume (machine.relation name.now a) fs e (terminals ts.entry)) }
{
    read_as(
        Phrase::Relating,
        built::call_of_two(alloc, name, left, built),
        ts,
    )
}

pub(crate) fn range_from<'a>(
    alloc: Global,
    first: Built,
    built: Built,
    ts: Terminals<'a>,
) -> Result<Turn<'a>, AllocError>
    ensures { (fs : List machine.Frame) (a : ExpTree) (e : ExpTree) → Shows first a → Shows built e →
        ShowsStep result fs (machine.resume (machine.range_from a) fs e (terminals ts.entry)) }
{
    match behind(Mark::Dots, ts) {
        Some(rest) => Ok(Turn::Open(Frame::RangeStep(first, built), rest)),
        None => read_as(Phrase::Range, built::range(alloc, first, built), ts),
    }
}

pub(crate) fn range_step<'a>(
    alloc: Global,
    first: Built,
    step: Built,
    built: Built,
    ts: Terminals<'a>,
) -> Result<Turn<'a>, AllocError>
    ensures { (fs : List machine.Frame) (a : ExpTree) (b : ExpTree) (e : ExpTree) → Shows first a → Shows step b → Shows built e →
        ShowsStep result fs (machine.resume (machine.range_step a b) fs e (terminals ts.entry)) }
{
    read_as(
        Phrase::Range,
        built::range_by(alloc, first, step, built),
        ts,
    )
}

pub(crate) fn power<'a>(
    alloc: Global,
    base: Built,
    built: Built,
    ts: Terminals<'a>,
) -> Result<Turn<'a>, AllocError>
    ensures { (fs : List machine.Frame) (a : ExpTree) (e : ExpTree) → Shows base a → Shows built e →
        ShowsStep result fs (machine.resume (machine.power a) fs e (terminals ts.entry)) }
{
    read_as(
        Phrase::Pow,
        built::call_of_two(alloc, "**", base, built),
        ts,
    )
}
