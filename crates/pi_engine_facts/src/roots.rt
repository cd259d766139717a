//! The roots of a fact's terms and of a call's arguments.
ghost use Rattle.std.specs.Prelude.{◌≡◌, ℕ, true, [], None, replicate, option_and_then};
ghost use Rattle.pi_terms.specs.Tree.{Tree, Trees, comp};
ghost use Rattle.pi_terms.specs.PatternTree.{exact_int, exact_atom, compound};
ghost use Rattle.pi_constraints.specs.State.{IsState};
ghost use Rattle.pi_constraints.specs.Store.{IsTerm, ShowsCell};
ghost use Rattle.pi_core.specs.CoreTree.{pattern_tree, pattern_trees};
ghost use Rattle.pi_meaning.specs.CoreMeaning.Facts.{fact_terms, unified_with};
ghost use Rattle.pi_engine_facts.specs.Roots.{Differs};

use pi_constraints::{Cell, Ref, StateStore};
use pi_core::Pattern;

/// Whether a fact with this head differs at a root from a call, whose arguments are those of a compound without a name: then
/// it doesn't unify with the call. It takes no memory.
pub(crate) fn differs<S: StateStore>(s: &S, head: &[Pattern], call: Ref) -> bool
    ensures { result ≡ true → (ts : Trees) (slots : ℕ) → IsState (S.seen s.now).now.state →
        IsTerm (S.seen s.now) call (comp [] ts) → option_and_then (unified_with ts)
        (fact_terms (pattern_trees head.now) (replicate slots None) (S.seen s.now).now.state) ≡ None }
{
    for i in 0..head.len() {
        let cell = s.look(s.arg(call, i as u64));
        if differs_from(s, &head[i], cell) {
            return true;
        }
    }
    false
}

/// Whether a pattern's terms differ at their roots from a term that shows this there.
fn differs_from<S: StateStore>(s: &S, pattern: &Pattern, cell: Cell) -> bool
    ensures { result ≡ true → (t : Tree) → ShowsCell (S.seen s.now) t cell → Differs (pattern_tree pattern.now) t }
{
    match pattern {
        Pattern::Slot(_) | Pattern::Named(_, _) => false,
        Pattern::Int(n) => is_no_int(s, cell, *n),
        Pattern::Atom(name) => is_no_atom(s, cell, name.as_str()),
        Pattern::Comp(name, patterns) => is_no_compound(
            s,
            cell,
            name.as_str(),
            patterns.as_slice(),
        ),
    }
}

fn is_no_int<S: StateStore>(s: &S, cell: Cell, n: i128) -> bool
    ensures { result ≡ true → (t : Tree) → ShowsCell (S.seen s.now) t cell → Differs (exact_int n) t }
{
    match cell {
        Cell::Var(_) => false,
        Cell::Int(m) => m != n,
        Cell::Atom(_) => true,
        Cell::Comp(_, _) => true,
    }
}

fn is_no_atom<S: StateStore>(s: &S, cell: Cell, name: &str) -> bool
    ensures { result ≡ true → (t : Tree) → ShowsCell (S.seen s.now) t cell → Differs (exact_atom name.now) t }
{
    match cell {
        Cell::Var(_) => false,
        Cell::Int(_) => true,
        Cell::Atom(k) => name != s.name(k),
        Cell::Comp(_, _) => true,
    }
}

fn is_no_compound<S: StateStore>(s: &S, cell: Cell, name: &str, patterns: &[Pattern]) -> bool
    ensures { result ≡ true → (t : Tree) → ShowsCell (S.seen s.now) t cell → Differs (compound name.now (pattern_trees patterns.now)) t }
{
    match cell {
        Cell::Var(_) => false,
        Cell::Int(_) => true,
        Cell::Atom(_) => true,
        Cell::Comp(k, count) => count != patterns.len() as u64 || name != s.name(k),
    }
}
