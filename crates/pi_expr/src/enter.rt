//! The step before an operand.
ghost use Rattle.std.specs.Prelude.{◌≡◌, List, ◌∷◌};
ghost use Rattle.pi_syntax.specs.Terminals as t;
ghost use Rattle.pi_expr_phrases.specs.Machine as machine;
ghost use Rattle.pi_expr_phrases.specs.Shown.{mark_shown, phrase_shown, terminal_shown, terminals};
ghost use Rattle.pi_expr_phrases.specs.Turns.{ShowsTurn, ShowsStep};

use crate::arguments::arguments;
use pi_expr_phrases::{
    Ahead, Choices, Closing, Frame, Items, Mark, Phrase, Terminal, Terminals, Turn, behind, built,
    found, front, open_behind, open_when,
};
use std::alloc::{AllocError, Global};

/// The step before an operand of this rank or a higher one.
pub fn enter<'a>(alloc: Global, wanted: u8, ts: Terminals<'a>) -> Result<Turn<'a>, AllocError>
    ensures { (fs : List machine.Frame) → machine.wanted fs ≡ wanted → ShowsStep result fs (machine.enter fs (terminals ts.entry)) }
{
    match front(ts) {
        Ahead::Next(first, rest) => enter_by(alloc, wanted, first, rest),
        Ahead::End => Ok(Turn::Fail),
    }
}

fn enter_by<'a>(
    alloc: Global,
    wanted: u8,
    first: Terminal<'a>,
    rest: Terminals<'a>,
) -> Result<Turn<'a>, AllocError>
    ensures { (fs : List machine.Frame) → machine.wanted fs ≡ wanted →
        ShowsStep result fs (machine.enter fs (terminal_shown first.entry ∷ terminals rest.entry)) }
{
    match first {
        Terminal::Variable(name) => variable(alloc, name, rest),
        Terminal::Atom(name) => atom(alloc, name, rest),
        Terminal::Integer(natural) => Ok(found(built::integer(natural.value), rest)),
        Terminal::Text(text) => {
            let meant = built::text(alloc, text)?;
            Ok(found(meant, rest))
        }
        Terminal::GoalSign(name) => Ok(sign(wanted, Phrase::Unit, name, rest)),
        Terminal::Mark(mark) => enter_mark(alloc, wanted, mark, rest),
        Terminal::Joint(_, _) => Ok(Turn::Fail),
        Terminal::Relation(_) => Ok(Turn::Fail),
    }
}

fn enter_mark<'a>(
    alloc: Global,
    wanted: u8,
    mark: Mark,
    rest: Terminals<'a>,
) -> Result<Turn<'a>, AllocError>
    ensures { (fs : List machine.Frame) → machine.wanted fs ≡ wanted →
        ShowsStep result fs (machine.enter fs (mark_shown mark ∷ terminals rest.entry)) }
{
    match mark {
        Mark::ConstraintNot => Ok(sign(wanted, Phrase::Negation, "#~", rest)),
        Mark::Plus => Ok(sign(wanted, Phrase::Unary, "+", rest)),
        Mark::Complement => Ok(sign(wanted, Phrase::Unary, "~", rest)),
        Mark::Minus => Ok(open_when(wanted <= 19, Frame::Minus(rest), rest)),
        Mark::OpenParen => Ok(Turn::Open(Frame::Parens(false), rest)),
        Mark::OpenBracket => Ok(list(alloc, rest)),
        Mark::OpenBrace => Ok(array(alloc, rest)),
        Mark::Dollar => term(alloc, rest),
        Mark::If => Ok(Turn::Open(Frame::IfTest(Choices::new(alloc)), rest)),
        Mark::Foreach => Ok(foreach(alloc, rest)),
        Mark::While => Ok(open_behind(Mark::OpenParen, Frame::WhileTest, rest)),
        Mark::Do => Ok(Turn::Open(Frame::DoBody, rest)),
        _ => Ok(Turn::Fail),
    }
}

/// A sign before an operand, where a phrase of its rank is looked for.
fn sign<'a>(wanted: u8, phrase: Phrase, name: &'a str, rest: Terminals<'a>) -> Turn<'a>
    ensures { (fs : List machine.Frame) → machine.wanted fs ≡ wanted →
        ShowsTurn result fs (machine.enter_sign (phrase_shown phrase) name.now fs (terminals rest.entry)) }
{
    let rank = phrase.rank();
    open_when(wanted <= rank, Frame::Signed(phrase, name), rest)
}

fn variable<'a>(alloc: Global, name: &'a str, ts: Terminals<'a>) -> Result<Turn<'a>, AllocError>
    ensures { (fs : List machine.Frame) → ShowsStep result fs (machine.enter fs (t.variable name.now ∷ terminals ts.entry)) }
{
    match behind(Mark::At, ts) {
        Some(rest) => Ok(Turn::Open(Frame::Pattern(name), rest)),
        None => {
            let variable = built::variable(alloc, name)?;
            Ok(Turn::Found(Phrase::Prim, true, variable, ts))
        }
    }
}

fn atom<'a>(alloc: Global, name: &'a str, ts: Terminals<'a>) -> Result<Turn<'a>, AllocError>
    ensures { (fs : List machine.Frame) → ShowsStep result fs (machine.enter fs (t.atom name.now ∷ terminals ts.entry)) }
{
    match behind(Mark::OpenParen, ts) {
        Some(rest) => arguments(alloc, Closing::Call(name), Items::new(alloc), rest),
        None => {
            let atom = built::atom(alloc, name)?;
            Ok(found(atom, ts))
        }
    }
}

fn list<'a>(alloc: Global, ts: Terminals<'a>) -> Turn<'a>
    ensures { (fs : List machine.Frame) → ShowsTurn result fs (machine.enter fs (t.open_bracket ∷ terminals ts.entry)) }
{
    let items = Items::new(alloc);
    match behind(Mark::CloseBracket, ts) {
        Some(rest) => found(built::list(items), rest),
        None => Turn::Open(Frame::Items(Closing::List, items), ts),
    }
}

fn array<'a>(alloc: Global, ts: Terminals<'a>) -> Turn<'a>
    ensures { (fs : List machine.Frame) → ShowsTurn result fs (machine.enter fs (t.open_brace ∷ terminals ts.entry)) }
{
    let items = Items::new(alloc);
    match behind(Mark::CloseBrace, ts) {
        Some(rest) => found(built::array(items), rest),
        None => Turn::Open(Frame::Items(Closing::Array, items), ts),
    }
}

/// Behind `$`.
fn term<'a>(alloc: Global, ts: Terminals<'a>) -> Result<Turn<'a>, AllocError>
    ensures { (fs : List machine.Frame) → ShowsStep result fs (machine.enter_term fs (terminals ts.entry)) }
{
    match front(ts) {
        Ahead::Next(first, rest) => match first {
            Terminal::Atom(name) => structure(alloc, name, rest),
            _ => Ok(open_behind(Mark::OpenParen, Frame::Parens(true), ts)),
        },
        Ahead::End => Ok(Turn::Fail),
    }
}

/// Behind `$` and an atom.
fn structure<'a>(alloc: Global, name: &'a str, ts: Terminals<'a>) -> Result<Turn<'a>, AllocError>
    ensures { (fs : List machine.Frame) → ShowsStep result fs (machine.enter_term fs (t.atom name.now ∷ terminals ts.entry)) }
{
    match behind(Mark::OpenParen, ts) {
        Some(rest) => arguments(alloc, Closing::Quote(name), Items::new(alloc), rest),
        None => Ok(Turn::Fail),
    }
}

fn foreach<'a>(alloc: Global, ts: Terminals<'a>) -> Turn<'a>
    ensures { (fs : List machine.Frame) → ShowsTurn result fs (machine.enter fs (t.word_foreach ∷ terminals ts.entry)) }
{
    let items = Frame::Items(Closing::Foreach, Items::new(alloc));
    open_behind(Mark::OpenParen, items, ts)
}
