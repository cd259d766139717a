//! Tests of the kind of a term. A User's Guide to Picat, 'Data Types, Operators, and Built-ins'; that arrays are structures is own.
ghost use Rattle.std.specs.Prelude.{◌≡◌};
ghost use Rattle.pi_terms.specs.Tree.{Tree};
ghost use Rattle.pi_constraints.specs.Value.{IsAcyclic};
ghost use Rattle.pi_constraints.specs.State.{bindings, followed};
ghost use Rattle.pi_constraints.specs.Store.{IsTerm, ShowsCell};
ghost use Rattle.pi_effects.specs.Items.{is_nil};
ghost use Rattle.pi_effects.specs.Kinds.{is_cell};
ghost use Rattle.pi_lib_builtin.specs.Kinds.{shows_variable, shows_integer, shows_atom, shows_compound, is_array, passes};

use pi_constraints::{Cell, Ref, StateStore};

/// A test of the kind of a term.
#[derive(Clone, Copy)]
pub enum TermKind {
    Variable,
    NoVariable,
    Integer,
    Atom,
    /// An integer or an atom.
    Atomic,
    Compound,
    /// The empty list or a list cell.
    List,
    Array,
    /// A compound that is no list cell.
    Structure,
}

/// Whether a term is of a kind, with bindings at its root followed. It takes no memory.
pub fn is_of_kind<S: StateStore>(s: &S, kind: TermKind, a: Ref) -> bool
    ensures { (t : Tree) → IsAcyclic (bindings (S.seen s.now).now.state) → IsTerm (S.seen s.now) a t →
        result ≡ passes kind (followed (bindings (S.seen s.now).now.state) t) }
{
    let cell = s.look(a);
    match kind {
        TermKind::Variable => is_variable(cell),
        TermKind::NoVariable => !is_variable(cell),
        TermKind::Integer => is_integer(cell),
        TermKind::Atom => is_atom(cell),
        TermKind::Atomic => is_integer(cell) | is_atom(cell),
        TermKind::Compound => is_compound(cell),
        TermKind::List => is_nil(s, cell) | is_list_cell(s, cell),
        TermKind::Array => is_array(s, cell),
        TermKind::Structure => is_structure(s, cell),
    }
}

fn is_variable(cell: Cell) -> bool
    ensures { result ≡ shows_variable cell }
{
    match cell {
        Cell::Var(_) => true,
        _ => false,
    }
}

fn is_integer(cell: Cell) -> bool
    ensures { result ≡ shows_integer cell }
{
    match cell {
        Cell::Int(_) => true,
        _ => false,
    }
}

fn is_atom(cell: Cell) -> bool
    ensures { result ≡ shows_atom cell }
{
    match cell {
        Cell::Atom(_) => true,
        _ => false,
    }
}

fn is_compound(cell: Cell) -> bool
    ensures { result ≡ shows_compound cell }
{
    match cell {
        Cell::Comp(_, _) => true,
        _ => false,
    }
}

/// Whether a term is the empty list.
fn is_nil<S: StateStore>(s: &S, cell: Cell) -> bool
    ensures { (t : Tree) → ShowsCell (S.seen s.now) t cell → result ≡ is_nil t }
{
    match cell {
        Cell::Atom(k) => s.name(k) == "[]",
        _ => false,
    }
}

/// Whether a term is a list cell.
fn is_list_cell<S: StateStore>(s: &S, cell: Cell) -> bool
    ensures { (t : Tree) → ShowsCell (S.seen s.now) t cell → result ≡ is_cell t }
{
    match cell {
        Cell::Comp(k, count) => (count == 2) & (s.name(k) == "[|]"),
        _ => false,
    }
}

/// Whether a term is an array.
fn is_array<S: StateStore>(s: &S, cell: Cell) -> bool
    ensures { (t : Tree) → ShowsCell (S.seen s.now) t cell → result ≡ is_array t }
{
    match cell {
        Cell::Comp(k, _) => s.name(k) == "{}",
        _ => false,
    }
}

/// Whether a term is a compound that is no list cell.
fn is_structure<S: StateStore>(s: &S, cell: Cell) -> bool
    ensures { (t : Tree) → ShowsCell (S.seen s.now) t cell → result ≡ passes TermKind.Structure t }
{
    is_compound(cell) & !is_list_cell(s, cell)
}
