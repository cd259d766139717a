//! Texts of terms of a store.
ghost use Rattle.std.specs.Prelude.{[], ◌++◌, Ok};
ghost use Rattle.pi_terms.specs.Tree.{Tree};
ghost use Rattle.pi_constraints.specs.Value.{value};
ghost use Rattle.pi_constraints.specs.State.{bindings};
ghost use Rattle.pi_constraints.specs.Store.{IsTerm};
ghost use Rattle.pi_syntax.specs.PrintTerm.{text_of};
ghost use Rattle.pi_unify.specs.Terms.{HoldsNoCycle};
ghost use Rattle.pi_effects.specs.Answer.{measured};
ghost use Rattle.pi_effects.specs.Texts as spec;
ghost use Rattle.pi_effects.specs.Results.{ShowsSame};

use pi_constraints::{Ref, StateStore};
use pi_effects::Stop;
use pi_print_terms::term_text;
use pi_terms::Text;
use std::alloc::Global;

/// The text of a term's value, in quoted or in plain form, and what stands behind it: what `print`, `println`, `write` and
/// `writeln` write. A value past 16,777,216 cells raises `term_too_large`. A User's Guide to Picat, 'Input and Output'; the
/// forms and the limit are own.
pub fn text_before<S: StateStore>(
    alloc: Global,
    s: &S,
    term: Ref,
    quoted: bool,
    behind: &str,
) -> Result<Text, Stop>
    ensures { (t : Tree) → HoldsNoCycle (S.seen s.now) → IsTerm (S.seen s.now) term t →
        ShowsSame (S.seen s.now) result (spec.text_before quoted behind.now (S.seen s.now).now.state t) }
{
    let text = text_at(alloc, s, term, quoted)?;
    let mut line = String::from_str(alloc, text.as_str())?;
    line.push_str(behind)?;
    let made = Text::from_string(alloc, line)?;
    Ok(made)
}

/// The text of a term's value.
pub fn text_at<S: StateStore>(alloc: Global, s: &S, term: Ref, quoted: bool) -> Result<Text, Stop>
    ensures { (t : Tree) → HoldsNoCycle (S.seen s.now) → IsTerm (S.seen s.now) term t →
        ShowsSame (S.seen s.now) result (measured (value (bindings (S.seen s.now).now.state) t)
        (Ok (text_of quoted (value (bindings (S.seen s.now).now.state) t)))) }
{
    let read = s.read_term(alloc, term)?;
    let text = term_text(alloc, &read, quoted)?;
    Ok(text)
}
