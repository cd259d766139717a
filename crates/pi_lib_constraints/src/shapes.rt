//! What a term is as the right side of `::` and `notin`, at its root.
ghost use Rattle.std.specs.Prelude.{◌≡◌, List, ℕ, codes};
ghost use Rattle.std.specs.Str.{bytes_eq};
ghost use Rattle.pi_terms.specs.Tree.{Tree};
ghost use Rattle.pi_constraints.specs.State.{bindings};
ghost use Rattle.pi_constraints.specs.Store.{IsTerm, IsName};
ghost use Rattle.pi_constraints.specs.Value.{value};
ghost use Rattle.pi_effects.specs.Answer.{integer_at};
ghost use Rattle.pi_unify.specs.Terms.{HoldsNoCycle};
ghost use Rattle.pi_lib_constraints.specs.Sides.{ShowsShape};

use pi_constraints::{Cell, Ref, StateStore};

/// What a term is as a right side: a range, a range with a step, or none of these.
#[derive(Clone, Copy)]
pub(crate) enum Shape {
    Range(Ref, Ref),
    Steps(Ref, Ref, Ref),
    Other,
}

/// What a term is as a right side, with bindings followed.
pub(crate) fn shape_at<S: StateStore>(s: &S, term: Ref) -> Shape
    ensures { (t : Tree) → HoldsNoCycle (S.seen s.now) → IsTerm (S.seen s.now) term t → ShowsShape (S.seen s.now).now t result }
{
    let Cell::Comp(name, count) = s.look(term) else {
        return Shape::Other;
    };
    if !is_range(s, name) {
        return Shape::Other;
    }
    if count == 2 {
        return Shape::Range(s.arg(term, 0), s.arg(term, 1));
    }
    if count == 3 {
        return Shape::Steps(s.arg(term, 0), s.arg(term, 1), s.arg(term, 2));
    }
    Shape::Other
}

fn is_range<S: StateStore>(s: &S, name: u64) -> bool
    ensures { (f : List ℕ) → IsName (S.seen s.now) name f → result ≡ bytes_eq f (codes "..") }
{
    s.name(name) == ".."
}

/// The integer that a term is, with bindings followed.
pub(crate) fn number_at<S: StateStore>(s: &S, term: Ref) -> Option<i128>
    ensures { (t : Tree) → HoldsNoCycle (S.seen s.now) → IsTerm (S.seen s.now) term t →
        result ≡ integer_at (value (bindings (S.seen s.now).now.state) t) }
{
    match s.look(term) {
        Cell::Int(n) => Some(n),
        Cell::Var(_) => None,
        Cell::Atom(_) => None,
        Cell::Comp(_, _) => None,
    }
}
