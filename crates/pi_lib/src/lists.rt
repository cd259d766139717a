//! Texts as lists of characters.
ghost use Rattle.std.specs.Prelude.{◌≡◌, IfOk};
ghost use Rattle.std.specs.Char.{encode_utf8};
ghost use Rattle.std.specs.Str.{chars};
ghost use Rattle.pi_terms.specs.Tree.{Tree, atom};
ghost use Rattle.pi_constraints.specs.Store.{IsTerm, Stays, Gives};
ghost use Rattle.pi_unify.specs.Terms.{HoldsNoCycle};
ghost use Rattle.pi_effects.specs.Texts.{plain_text_list, text_list};
ghost use Rattle.pi_effects.specs.Results.{ShowsTerm};

use crate::texts::text_at;
use pi_constraints::{Ref, StateStore};
use pi_effects::Stop;
use std::alloc::{AllocError, Global};

/// `to_string(T)`: the plain text of a term's value as a list of its characters. A value past 16,777,216 cells raises
/// `term_too_large`. A User's Guide to Picat, 'Data Types, Operators, and Built-ins'; the limit is own.
pub fn to_string<S: StateStore>(alloc: Global, s: &mut S, term: Ref) -> Result<Ref, Stop>
    ensures stays { Stays (S.seen s.old) (S.seen s.new) }
    ensures shows { (t : Tree) → HoldsNoCycle (S.seen s.old) → IsTerm (S.seen s.old) term t →
        ShowsTerm (S.seen s.old) (S.seen s.new) result (plain_text_list (S.seen s.old).now.state t) }
{
    let text = text_at(alloc, s, term, false)?;
    let made = put_characters(alloc, s, text.as_str())?;
    Ok(made)
}

/// Puts the list of a text's characters, from the last one on.
fn put_characters<S: StateStore>(alloc: Global, s: &mut S, text: &str) -> Result<Ref, AllocError>
    ensures stays { Stays (S.seen s.old) (S.seen s.new) }
    ensures ok { IfOk result (λ made. IsTerm (S.seen s.new) made (text_list text.now)) }
{
    let characters = characters_of(alloc, text)?;
    let mut list = s.put_atom("[]")?;
    for k in (0..characters.len()).rev() {
        let character = put_character(s, characters[k])?;
        list = s.put_comp("[|]", &[character, list])?;
    }
    Ok(list)
}

fn characters_of(alloc: Global, text: &str) -> Result<Vec<char>, AllocError>
    ensures ok { IfOk result (λ found. found.items ≡ chars text.now) }
{
    text.chars().collect(alloc)
}

/// Puts the atom of one character.
fn put_character<S: StateStore>(s: &mut S, c: char) -> Result<Ref, AllocError>
    ensures stays { Stays (S.seen s.old) (S.seen s.new) }
    ensures ok { IfOk result (λ made. IsTerm (S.seen s.new) made (atom (encode_utf8 c))) }
{
    let mut bytes = [0; 4];
    let made = s.put_atom(c.encode_utf8(&mut bytes))?;
    Ok(made)
}
