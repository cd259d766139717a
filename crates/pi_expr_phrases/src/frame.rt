//! Open phrases.
ghost use Rattle.std.specs.Prelude.{◌≡◌, List};
ghost use Rattle.pi_syntax.specs.ExpTree.{ExpTree};
ghost use Rattle.pi_expr_phrases.specs.Machine as machine;
ghost use Rattle.pi_expr_phrases.specs.Shown.{mark_shown, terminals};
ghost use Rattle.pi_expr_phrases.specs.Trees.{Shows};
ghost use Rattle.pi_expr_phrases.specs.Turns.{ShowsFrame, ShowsTurn};

use crate::built::Built;
use crate::choices::Choices;
use crate::items::Items;
use crate::phrase::{Line, Phrase};
use crate::terminal::Mark;
use crate::terminals::{Terminals, behind};

/// What units between brackets are for.
#[derive(Drop)]
pub enum Closing<'a> {
    Call(&'a str),
    Quote(&'a str),
    /// Behind a dot; what stands before it is the first of the items.
    Method(&'a str),
    List,
    Array,
    /// Of an array, or not; with the item.
    Collect(bool, Built),
    Foreach,
}

/// An open phrase, which waits for an operand.
#[derive(Drop)]
pub enum Frame<'a> {
    Signed(Phrase, &'a str),
    /// `-`, with the terminals behind it.
    Minus(Terminals<'a>),
    Joining(Line, &'a str, Built),
    Relation(&'a str, Built),
    RangeFrom(Built),
    RangeStep(Built, Built),
    Power(Built),
    /// One unit or more.
    Conjuncts(Items),
    /// One branch or more.
    Branches(Items),
    Arrow(Built),
    Pattern(&'a str),
    /// Parentheses, behind `$` or not.
    Parens(bool),
    Items(Closing<'a>, Items),
    ListTail(Items),
    Indexing(Built),
    ForeachBody(Items),
    WhileTest,
    WhileBody(Built),
    DoBody,
    DoTest(Built),
    IfTest(Choices),
    IfBody(Choices, Built),
    IfLast(Choices),
}

impl Frame<'_> {
    /// The rank of the operand that is waited for.
    pub fn wants(&self) -> u8
        ensures { (f : machine.Frame) → ShowsFrame self.now f → result ≡ machine.wants f }
    {
        match self {
            Frame::Signed(phrase, _) => phrase.rank(),
            Frame::Minus(_) => 19,
            Frame::Joining(line, _, _) => line.rank() + 1,
            Frame::Relation(_, _) => 12,
            Frame::RangeFrom(_) => 13,
            Frame::RangeStep(_, _) => 13,
            Frame::Power(_) => 19,
            Frame::Conjuncts(_) => 4,
            Frame::Branches(_) => 2,
            Frame::Arrow(_) => 3,
            Frame::Pattern(_) => 22,
            Frame::Parens(_) => 1,
            Frame::Items(_, _) => 4,
            Frame::ListTail(_) => 4,
            Frame::Indexing(_) => 4,
            Frame::ForeachBody(_) => 1,
            Frame::WhileTest => 1,
            Frame::WhileBody(_) => 1,
            Frame::DoBody => 1,
            Frame::DoTest(_) => 1,
            Frame::IfTest(_) => 1,
            Frame::IfBody(_, _) => 1,
            Frame::IfLast(_) => 1,
        }
    }
}

/// What a step leads to, with the terminals that are left.
#[derive(Drop)]
pub enum Turn<'a> {
    /// A phrase opens, and its operand comes next.
    Open(Frame<'a>, Terminals<'a>),
    /// A phrase is read, which may be indexed or not.
    Found(Phrase, bool, Built, Terminals<'a>),
    /// There is no expression.
    Fail,
}

/// A primary that isn't indexed.
pub fn found<'a>(built: Built, rest: Terminals<'a>) -> Turn<'a>
    ensures { (fs : List machine.Frame) (e : ExpTree) → Shows built e → ShowsTurn result fs (machine.found fs e (terminals rest.entry)) }
{
    Turn::Found(Phrase::Prim, false, built, rest)
}

/// A phrase that opens where that holds.
pub fn open_when<'a>(holds: bool, frame: Frame<'a>, rest: Terminals<'a>) -> Turn<'a>
    ensures { (fs : List machine.Frame) (f : machine.Frame) → ShowsFrame frame.entry f →
        ShowsTurn result fs (machine.when holds (machine.opened f fs (terminals rest.entry))) }
{
    if holds {
        Turn::Open(frame, rest)
    } else {
        drop(frame);
        Turn::Fail
    }
}

/// A phrase that opens behind the mark, where that comes next.
pub fn open_behind<'a>(mark: Mark, frame: Frame<'a>, ts: Terminals<'a>) -> Turn<'a>
    ensures { (fs : List machine.Frame) (f : machine.Frame) → ShowsFrame frame.entry f →
        ShowsTurn result fs (machine.choose (mark_shown mark) (terminals ts.entry) (machine.opened f fs) machine.fail) }
{
    match behind(mark, ts) {
        Some(rest) => Turn::Open(frame, rest),
        None => {
            drop(frame);
            Turn::Fail
        }
    }
}

/// A primary that isn't indexed, where the mark that closes it comes next.
pub fn found_behind<'a>(mark: Mark, built: Built, ts: Terminals<'a>) -> Turn<'a>
    ensures { (fs : List machine.Frame) (e : ExpTree) → Shows built e →
        ShowsTurn result fs (machine.choose (mark_shown mark) (terminals ts.entry) (machine.found fs e) machine.fail) }
{
    match behind(mark, ts) {
        Some(rest) => found(built, rest),
        None => {
            drop(built);
            Turn::Fail
        }
    }
}
