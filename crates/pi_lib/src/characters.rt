//! The characters of a term that is a text: a proper list of atoms of one character.
ghost use Rattle.std.specs.Prelude.{◌≡◌, ◌==◌, ◌&&◌, ℕ, List, length, IfOk};
ghost use Rattle.std.specs.Str.{chars, bytes_eq};
ghost use Rattle.pi_terms.specs.Tree.{Tree};
ghost use Rattle.pi_terms.specs.ListNames.{nil, cell_name};
ghost use Rattle.pi_terms.specs.ListCopies.{list_cell};
ghost use Rattle.pi_constraints.specs.Value.{value};
ghost use Rattle.pi_constraints.specs.State.{bindings};
ghost use Rattle.pi_constraints.specs.Store.{IsTerm, IsName};
ghost use Rattle.pi_unify.specs.Terms.{IsGiven, HoldsNoCycle, value_of};
ghost use Rattle.pi_effects.specs.Exception.{bad_format};
ghost use Rattle.pi_effects.specs.Format.{a_text, argument_text};
ghost use Rattle.pi_effects.specs.Results.{ShowsSame};
ghost use Rattle.pi_lib.specs.Characters.{ShowsCharacters, ShowsLink};

use pi_constraints::{Cell, Ref, StateStore};
use pi_effects::{Fault, Stop};
use pi_terms::Text;
use std::alloc::{AllocError, Global};

/// The most characters of a text that is written: it has two cells for each, and one at the end, and at most 16,777,216. (Own.)
const MOST_CHARACTERS: u64 = 8_388_607;

/// The characters of a text, and how many they are.
#[derive(Drop)]
struct Characters {
    text: Text,
    count: u64,
}

/// What a term is as the rest of a text: a character, by the number of its atom, in front of another rest; the end; or none.
#[derive(Clone, Copy)]
enum Link {
    Character(u64, Ref),
    End,
    Other,
}

/// The characters of a term that is a text. One past 16,777,216 cells raises `term_too_large`; any other term raises
/// `bad_format` of the format that it belongs to.
pub fn text_argument<S: StateStore>(
    alloc: Global,
    s: &S,
    term: Ref,
    format: Ref,
) -> Result<Text, Stop>
    ensures { (t u : Tree) → HoldsNoCycle (S.seen s.now) → IsTerm (S.seen s.now) term t →
        IsTerm (S.seen s.now) format u → ShowsSame (S.seen s.now) result
        (argument_text a_text (bad_format u (S.seen s.now).now.state) (value (bindings (S.seen s.now).now.state) t)) }
{
    let Some(found) = characters_at(alloc, s, term)? else {
        return Err(Stop::Raised(Fault::BadFormat(format)));
    };
    let Characters { text, count } = found;
    if count > MOST_CHARACTERS {
        return Err(Stop::Raised(Fault::TermTooLarge));
    }
    Ok(text)
}

/// The characters of a term; None exactly where it is no text.
fn characters_at<S: StateStore>(
    alloc: Global,
    s: &S,
    term: Ref,
) -> Result<Option<Characters>, AllocError>
    ensures { IfOk result (λ found. IsGiven (S.seen s.now) term → HoldsNoCycle (S.seen s.now) →
        ShowsCharacters (value_of (S.seen s.now) term) found) }
{
    let mut text = String::new(alloc);
    let mut at = term;
    for count in 0..u64::MAX {
        match link_at(s, at) {
            Link::Character(name, rest) => {
                text.push_str(s.name(name))?;
                at = rest;
            }
            Link::End => {
                let text = Text::from_string(alloc, text)?;
                return Ok(Some(Characters { text, count }));
            }
            Link::Other => return Ok(None),
        }
    }
    Err(AllocError)
}

/// What a term is as the rest of a text. It takes no memory.
fn link_at<S: StateStore>(s: &S, at: Ref) -> Link
    ensures { IsGiven (S.seen s.now) at → HoldsNoCycle (S.seen s.now) → ShowsLink (S.seen s.now) (value_of (S.seen s.now) at) result }
{
    match s.look(at) {
        Cell::Comp(name, count) => {
            if is_cell(s, name, count) {
                cell_link(s, s.arg(at, 0), s.arg(at, 1))
            } else {
                Link::Other
            }
        }
        Cell::Atom(name) => {
            if is_nil(s, name) {
                Link::End
            } else {
                Link::Other
            }
        }
        _ => Link::Other,
    }
}

/// Whether a compound of this name, with so many arguments, is a list cell.
fn is_cell<S: StateStore>(s: &S, name: u64, count: u64) -> bool
    ensures { (f : List ℕ) → IsName (S.seen s.now) name f → result ≡ (bytes_eq f cell_name && (count == 2)) }
{
    s.name(name) == "[|]" && count == 2
}

/// Whether an atom is the empty list.
fn is_nil<S: StateStore>(s: &S, name: u64) -> bool
    ensures { (f : List ℕ) → IsName (S.seen s.now) name f → result ≡ bytes_eq f nil }
{
    s.name(name) == "[]"
}

/// What a list cell with this item and this rest is as the rest of a text.
fn cell_link<S: StateStore>(s: &S, item: Ref, rest: Ref) -> Link
    ensures { IsGiven (S.seen s.now) item → IsGiven (S.seen s.now) rest → HoldsNoCycle (S.seen s.now) →
        ShowsLink (S.seen s.now) (list_cell (value_of (S.seen s.now) item) (value_of (S.seen s.now) rest)) result }
{
    let Cell::Atom(name) = s.look(item) else {
        return Link::Other;
    };
    if is_character(s.name(name)) {
        Link::Character(name, rest)
    } else {
        Link::Other
    }
}

fn is_character(name: &str) -> bool
    ensures { result ≡ (length (chars name.now) == 1) }
{
    name.chars().count() == 1
}
