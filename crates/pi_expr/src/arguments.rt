//! Units in parentheses.
ghost use Rattle.std.specs.Prelude.{List};
ghost use Rattle.pi_syntax.specs.ExpTree.{no_exps};
ghost use Rattle.pi_expr_phrases.specs.Machine as machine;
ghost use Rattle.pi_expr_phrases.specs.Shown.{terminals};
ghost use Rattle.pi_expr_phrases.specs.Turns.{ShowsUnits, ShowsStep};

use pi_expr_phrases::{Closing, Frame, Items, Mark, Terminals, Turn, behind, closed};
use std::alloc::{AllocError, Global};

/// Behind `(`: units in parentheses, or none.
pub(crate) fn arguments<'a>(
    alloc: Global,
    closing: Closing<'a>,
    items: Items,
    ts: Terminals<'a>,
) -> Result<Turn<'a>, AllocError>
    ensures { (fs : List machine.Frame) (c : machine.Closing) → ShowsUnits closing.entry items c no_exps →
        ShowsStep result fs (machine.arguments c fs (terminals ts.entry)) }
{
    match behind(Mark::CloseParen, ts) {
        Some(rest) => closed(alloc, closing, items, rest),
        None => Ok(Turn::Open(Frame::Items(closing, items), ts)),
    }
}
