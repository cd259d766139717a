//! Arrays of two items, as arguments.
ghost use Rattle.std.specs.Prelude.{◌≡◌, ◌==◌, ◌&&◌, List, ℕ, codes};
ghost use Rattle.std.specs.Str.{bytes_eq};
ghost use Rattle.pi_terms.specs.Tree.{Tree};
ghost use Rattle.pi_constraints.specs.State.{bindings, followed};
ghost use Rattle.pi_constraints.specs.Store.{IsTerm, IsName};
ghost use Rattle.pi_unify.specs.Terms.{HoldsNoCycle};
ghost use Rattle.pi_effects.specs.Inner.{pair_parts};
ghost use Rattle.pi_lib.specs.Pairs.{ShowsPair};

use pi_constraints::{Cell, Ref, StateStore};

/// The items of an array that has two; None exactly where the term is no such array. It takes no memory.
pub fn pair_at<S: StateStore>(s: &S, term: Ref) -> Option<(Ref, Ref)>
    ensures { (t : Tree) → HoldsNoCycle (S.seen s.now) → IsTerm (S.seen s.now) term t →
        ShowsPair (S.seen s.now) (pair_parts (followed (bindings (S.seen s.now).now.state) t)) result }
{
    let Cell::Comp(name, count) = s.look(term) else {
        return None;
    };
    if is_pair(s, name, count) {
        Some((s.arg(term, 0), s.arg(term, 1)))
    } else {
        None
    }
}

/// A compound with this name and so many arguments is an array of two.
fn is_pair<S: StateStore>(s: &S, name: u64, count: u64) -> bool
    ensures { (f : List ℕ) → IsName (S.seen s.now) name f → result ≡ (bytes_eq f (codes "{}") && (count == 2)) }
{
    s.name(name) == "{}" && count == 2
}
