//! The step behind a phrase that the next terminal goes on with.
ghost use Rattle.std.specs.Prelude.{◌≡◌, Bool, not, ◌&&◌, nat_le, List, ◌∷◌};
ghost use Rattle.pi_syntax.specs.ExpTree.{ExpTree};
ghost use Rattle.pi_syntax.specs.Grammar.{is_atom};
ghost use Rattle.pi_syntax.specs.Terminals as t;
ghost use Rattle.pi_expr_phrases.specs.Machine as machine;
ghost use Rattle.pi_expr_phrases.specs.Shown.{line_shown, mark_shown, phrase_shown, terminal_shown, terminals};
ghost use Rattle.pi_expr_phrases.specs.Trees.{Shows};
ghost use Rattle.pi_expr_phrases.specs.Turns.{ShowsTurn, ShowsStep};

use crate::arguments::arguments;
use pi_expr_phrases::{
    Ahead, Built, Closing, Frame, Items, Line, Mark, Phrase, Terminal, Terminals, Turn, behind,
    built, front, open_when,
};
use std::alloc::{AllocError, Global};

/// The step behind a phrase, which may be indexed or not, that the next terminal goes on with.
pub fn go_on<'a>(
    alloc: Global,
    phrase: Phrase,
    indexable: bool,
    built: Built,
    ts: Terminals<'a>,
) -> Result<Turn<'a>, AllocError>
    ensures { (fs : List machine.Frame) (e : ExpTree) → Shows built e →
        ShowsStep result fs (machine.continue fs (phrase_shown phrase) indexable e (terminals ts.entry)) }
{
    match front(ts) {
        Ahead::Next(first, rest) => go_on_by(alloc, phrase, indexable, built, first, rest),
        Ahead::End => Ok(refuse(built)),
    }
}

fn go_on_by<'a>(
    alloc: Global,
    phrase: Phrase,
    indexable: bool,
    built: Built,
    first: Terminal<'a>,
    rest: Terminals<'a>,
) -> Result<Turn<'a>, AllocError>
    ensures { (fs : List machine.Frame) (e : ExpTree) → Shows built e →
        ShowsStep result fs (machine.continue fs (phrase_shown phrase) indexable e
        (terminal_shown first.entry ∷ terminals rest.entry)) }
{
    match first {
        Terminal::Joint(line, name) => Ok(join(phrase, line, name, built, rest)),
        Terminal::Relation(name) => Ok(relation(phrase, name, built, rest)),
        Terminal::Mark(mark) => go_on_mark(alloc, phrase, indexable, built, mark, rest),
        Terminal::Variable(_) => Ok(refuse(built)),
        Terminal::Atom(_) => Ok(refuse(built)),
        Terminal::Integer(_) => Ok(refuse(built)),
        Terminal::Text(_) => Ok(refuse(built)),
        Terminal::GoalSign(_) => Ok(refuse(built)),
    }
}

fn go_on_mark<'a>(
    alloc: Global,
    phrase: Phrase,
    indexable: bool,
    built: Built,
    mark: Mark,
    rest: Terminals<'a>,
) -> Result<Turn<'a>, AllocError>
    ensures { (fs : List machine.Frame) (e : ExpTree) → Shows built e →
        ShowsStep result fs (machine.continue fs (phrase_shown phrase) indexable e (mark_shown mark ∷ terminals rest.entry)) }
{
    let rank = phrase.rank();
    match mark {
        Mark::Plus => Ok(join(phrase, Line::Sum, "+", built, rest)),
        Mark::Minus => Ok(join(phrase, Line::Sum, "-", built, rest)),
        Mark::Dots => Ok(open_when(13 <= rank, Frame::RangeFrom(built), rest)),
        Mark::Power => Ok(open_when(21 <= rank, Frame::Power(built), rest)),
        Mark::Comma => {
            let units = Items::one(alloc, built)?;
            Ok(open_when(4 <= rank, Frame::Conjuncts(units), rest))
        }
        Mark::Semicolon => {
            let parts = Items::one(alloc, built)?;
            Ok(open_when(2 <= rank, Frame::Branches(parts), rest))
        }
        Mark::Arrow => Ok(open_when(3 <= rank, Frame::Arrow(built), rest)),
        Mark::OpenBracket => Ok(index(rank, indexable, built, rest)),
        Mark::Dot => dot(alloc, rank, built, rest),
        _ => Ok(refuse(built)),
    }
}

fn join<'a>(
    phrase: Phrase,
    line: Line,
    name: &'a str,
    built: Built,
    rest: Terminals<'a>,
) -> Turn<'a>
    ensures { (fs : List machine.Frame) (e : ExpTree) → Shows built e →
        ShowsTurn result fs (machine.join_line (line_shown line) name.now fs (phrase_shown phrase) e (terminals rest.entry)) }
{
    let loose = line.rank();
    let rank = phrase.rank();
    open_when(loose <= rank, Frame::Joining(line, name, built), rest)
}

fn relation<'a>(phrase: Phrase, name: &'a str, built: Built, rest: Terminals<'a>) -> Turn<'a>
    ensures { (fs : List machine.Frame) (e : ExpTree) (b : Bool) → Shows built e →
        ShowsTurn result fs (machine.continue fs (phrase_shown phrase) b e (t.relation name.now ∷ terminals rest.entry)) }
{
    let rank = phrase.rank();
    open_when(12 <= rank, Frame::Relation(name, built), rest)
}

fn index<'a>(rank: u8, indexable: bool, built: Built, rest: Terminals<'a>) -> Turn<'a>
    ensures { (fs : List machine.Frame) (e : ExpTree) → Shows built e →
        ShowsTurn result fs (machine.when (nat_le 21 rank && indexable)
        (machine.opened (machine.indexing e) fs (terminals rest.entry))) }
{
    if 21 <= rank {
        open_when(indexable, Frame::Indexing(built), rest)
    } else {
        refuse(built)
    }
}

fn dot<'a>(
    alloc: Global,
    rank: u8,
    built: Built,
    rest: Terminals<'a>,
) -> Result<Turn<'a>, AllocError>
    ensures { (fs : List machine.Frame) (e : ExpTree) → Shows built e →
        ShowsStep result fs (machine.when (nat_le 21 rank && not (is_atom e)) (machine.enter_dot fs e (terminals rest.entry))) }
{
    if 21 <= rank {
        if built.is_atom() {
            Ok(refuse(built))
        } else {
            enter_dot(alloc, built, rest)
        }
    } else {
        Ok(refuse(built))
    }
}

/// Behind a dot.
fn enter_dot<'a>(alloc: Global, built: Built, ts: Terminals<'a>) -> Result<Turn<'a>, AllocError>
    ensures { (fs : List machine.Frame) (e : ExpTree) → Shows built e → ShowsStep result fs (machine.enter_dot fs e (terminals ts.entry)) }
{
    match front(ts) {
        Ahead::Next(first, rest) => match first {
            Terminal::Atom(name) => method(alloc, name, built, rest),
            _ => Ok(refuse(built)),
        },
        Ahead::End => Ok(refuse(built)),
    }
}

/// Behind a dot and an atom.
fn method<'a>(
    alloc: Global,
    name: &'a str,
    built: Built,
    ts: Terminals<'a>,
) -> Result<Turn<'a>, AllocError>
    ensures { (fs : List machine.Frame) (e : ExpTree) → Shows built e →
        ShowsStep result fs (machine.enter_dot fs e (t.atom name.now ∷ terminals ts.entry)) }
{
    let items = Items::one(alloc, built)?;
    match behind(Mark::OpenParen, ts) {
        Some(rest) => arguments(alloc, Closing::Method(name), items, rest),
        None => {
            let call = built::call(alloc, name, items)?;
            Ok(Turn::Found(Phrase::Post, true, call, ts))
        }
    }
}

/// No expression.
fn refuse<'a>(built: Built) -> Turn<'a>
    ensures { (fs : List machine.Frame) → ShowsTurn result fs machine.fail }
{
    drop(built);
    Turn::Fail
}
