//! What a term is as a list or an array, at its root.
ghost use Rattle.std.specs.Prelude.{◌≡◌, ◌==◌, ◌&&◌, List, ℕ};
ghost use Rattle.std.specs.Str.{bytes_eq};
ghost use Rattle.pi_terms.specs.Tree.{Tree};
ghost use Rattle.pi_terms.specs.ListNames.{nil, cell_name};
ghost use Rattle.pi_constraints.specs.State.{bindings, followed};
ghost use Rattle.pi_constraints.specs.Store.{IsTerm, IsName};
ghost use Rattle.pi_syntax.specs.PrintTerm.{array_name};
ghost use Rattle.pi_effects.specs.Items.{array_parts, structure_parts};
ghost use Rattle.pi_unify.specs.Terms.{HoldsNoCycle};
ghost use Rattle.pi_lib_builtin.specs.Items.{ShowsPart, ShowsSize};

use pi_constraints::{Cell, Ref, StateStore};

/// What a term is as a list.
#[derive(Clone, Copy)]
pub enum Part {
    /// The empty list.
    Nil,
    /// An item in front of a list.
    Cell,
    /// No list.
    Other,
}

/// What a term is as a list, with bindings followed.
pub fn part_at<S: StateStore>(s: &S, term: Ref) -> Part
    ensures { (t : Tree) → HoldsNoCycle (S.seen s.now) → IsTerm (S.seen s.now) term t →
        ShowsPart (followed (bindings (S.seen s.now).now.state) t) result }
{
    match s.look(term) {
        Cell::Var(_) => Part::Other,
        Cell::Int(_) => Part::Other,
        Cell::Atom(name) => {
            if is_nil(s, name) {
                Part::Nil
            } else {
                Part::Other
            }
        }
        Cell::Comp(name, count) => {
            if is_cell(s, name, count) {
                Part::Cell
            } else {
                Part::Other
            }
        }
    }
}

/// How many items an array has. None exactly where the term is no array.
pub fn array_size<S: StateStore>(s: &S, term: Ref) -> Option<u64>
    ensures { (t : Tree) → HoldsNoCycle (S.seen s.now) → IsTerm (S.seen s.now) term t →
        ShowsSize array_parts (followed (bindings (S.seen s.now).now.state) t) result }
{
    let Cell::Comp(name, count) = s.look(term) else {
        return None;
    };
    if is_array(s, name) { Some(count) } else { None }
}

/// How many arguments a compound has that is no list cell. None exactly where the term is none.
pub fn structure_size<S: StateStore>(s: &S, term: Ref) -> Option<u64>
    ensures { (t : Tree) → HoldsNoCycle (S.seen s.now) → IsTerm (S.seen s.now) term t →
        ShowsSize structure_parts (followed (bindings (S.seen s.now).now.state) t) result }
{
    let Cell::Comp(name, count) = s.look(term) else {
        return None;
    };
    if is_cell(s, name, count) {
        None
    } else {
        Some(count)
    }
}

fn is_nil<S: StateStore>(s: &S, name: u64) -> bool
    ensures { (f : List ℕ) → IsName (S.seen s.now) name f → result ≡ bytes_eq f nil }
{
    s.name(name) == "[]"
}

fn is_cell<S: StateStore>(s: &S, name: u64, count: u64) -> bool
    ensures { (f : List ℕ) → IsName (S.seen s.now) name f → result ≡ (bytes_eq f cell_name && (count == 2)) }
{
    s.name(name) == "[|]" && count == 2
}

fn is_array<S: StateStore>(s: &S, name: u64) -> bool
    ensures { (f : List ℕ) → IsName (S.seen s.now) name f → result ≡ bytes_eq f array_name }
{
    s.name(name) == "{}"
}
