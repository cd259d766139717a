//! Units between brackets that are closed.
ghost use Rattle.std.specs.Prelude.{◌≡◌, List, true, false};
ghost use Rattle.pi_syntax.specs.ExpTree.{ExpTree, ExpTrees};
ghost use Rattle.pi_expr_phrases.specs.Machine as machine;
ghost use Rattle.pi_expr_phrases.specs.Shown.{mark_shown, terminals};
ghost use Rattle.pi_expr_phrases.specs.Trees.{Shows, ShowsItems};
ghost use Rattle.pi_expr_phrases.specs.Turns.{ShowsUnits, ShowsTurn, ShowsStep};

use crate::built;
use crate::frame::{Closing, Frame, Turn, found};
use crate::items::Items;
use crate::phrase::Phrase;
use crate::terminal::Mark;
use crate::terminals::Terminals;
use std::alloc::{AllocError, Global};

/// Units that their bracket closes, before the rest.
pub fn closed<'a>(
    alloc: Global,
    closing: Closing<'a>,
    items: Items,
    rest: Terminals<'a>,
) -> Result<Turn<'a>, AllocError>
    ensures { (fs : List machine.Frame) (c : machine.Closing) (es : ExpTrees) → ShowsUnits closing.entry items c es →
        ShowsStep result fs (machine.closed fs c es (terminals rest.entry)) }
{
    match closing {
        Closing::Call(name) => {
            drop(closing);
            let call = built::call(alloc, name, items)?;
            Ok(Turn::Found(Phrase::Prim, true, call, rest))
        }
        Closing::Quote(name) => {
            drop(closing);
            let call = built::call(alloc, name, items)?;
            let quoted = built::quote(alloc, call)?;
            Ok(found(quoted, rest))
        }
        Closing::Method(name) => {
            drop(closing);
            let call = built::call(alloc, name, items)?;
            Ok(Turn::Found(Phrase::Post, true, call, rest))
        }
        Closing::List => {
            drop(closing);
            Ok(found(built::list(items), rest))
        }
        Closing::Array => {
            drop(closing);
            Ok(found(built::array(items), rest))
        }
        Closing::Collect(is_array, item) => {
            let all = built::collect(alloc, is_array, item, items)?;
            Ok(found(all, rest))
        }
        Closing::Foreach => {
            drop(closing);
            Ok(Turn::Open(Frame::ForeachBody(items), rest))
        }
    }
}

impl Closing<'_> {
    ghost use Rattle.std.specs.Prelude.{◌≡◌};
    ghost use Rattle.pi_syntax.specs.ExpTree.{ExpTrees};
    ghost use Rattle.pi_expr_phrases.specs.Machine as machine;
    ghost use Rattle.pi_expr_phrases.specs.Shown.{mark_shown};
    ghost use Rattle.pi_expr_phrases.specs.Turns.{ShowsUnits};
    ghost use Rattle.pi_expr_phrases.specs.declared.items.Items as code;

    /// The bracket that closes the units.
    pub fn closer(&self) -> Mark
        ensures { (items : code.Items) (c : machine.Closing) (es : ExpTrees) → ShowsUnits self.now items c es →
            mark_shown result ≡ machine.closer c }
    {
        match self {
            Closing::Call(_) => Mark::CloseParen,
            Closing::Quote(_) => Mark::CloseParen,
            Closing::Method(_) => Mark::CloseParen,
            Closing::List => Mark::CloseBracket,
            Closing::Array => Mark::CloseBrace,
            Closing::Collect(is_array, _) => closer_of_collect(*is_array),
            Closing::Foreach => Mark::CloseParen,
        }
    }
}

fn closer_of_collect(is_array: bool) -> Mark
    ensures { (e : ExpTree) → mark_shown result ≡ machine.closer (machine.of_collect is_array e) }
{
    if is_array {
        Mark::CloseBrace
    } else {
        Mark::CloseBracket
    }
}
