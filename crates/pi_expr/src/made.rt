//! Phrases whose tree was made, or that memory ran out.
ghost use Rattle.std.specs.Prelude.{false, List, IfOk};
ghost use Rattle.pi_syntax.specs.ExpTree.{ExpTree};
ghost use Rattle.pi_expr_phrases.specs.Machine as machine;
ghost use Rattle.pi_expr_phrases.specs.Shown.{mark_shown, phrase_shown, terminals};
ghost use Rattle.pi_expr_phrases.specs.Trees.{Shows};
ghost use Rattle.pi_expr_phrases.specs.Turns.{ShowsStep};

use pi_expr_phrases::{Built, Mark, Phrase, Terminals, Turn, found_behind};
use std::alloc::AllocError;

/// A phrase that can't be indexed, of the tree that was made.
pub(crate) fn read_as<'a>(
    phrase: Phrase,
    made: Result<Built, AllocError>,
    ts: Terminals<'a>,
) -> Result<Turn<'a>, AllocError>
    ensures { (fs : List machine.Frame) (e : ExpTree) → IfOk made (λ built. Shows built e) →
        ShowsStep result fs (machine.next (machine.value fs (phrase_shown phrase) false e (terminals ts.entry))) }
{
    match made {
        Ok(built) => Ok(Turn::Found(phrase, false, built, ts)),
        Err(error) => Err(error),
    }
}

/// A primary of the tree that was made, where the mark that closes it comes next.
pub(crate) fn read_before<'a>(
    mark: Mark,
    made: Result<Built, AllocError>,
    ts: Terminals<'a>,
) -> Result<Turn<'a>, AllocError>
    ensures { (fs : List machine.Frame) (e : ExpTree) → IfOk made (λ built. Shows built e) →
        ShowsStep result fs (machine.choose (mark_shown mark) (terminals ts.entry) (machine.found fs e) machine.fail) }
{
    match made {
        Ok(built) => Ok(found_behind(mark, built, ts)),
        Err(error) => Err(error),
    }
}
