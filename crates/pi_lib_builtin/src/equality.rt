//! Terms that are made equal, and terms that can't be. A User's Guide to Picat, 'Equality Testing, and Unification'.
ghost use Rattle.std.specs.Prelude.{◌≡◌, Ok, is_none, IfOk, IfErr};
ghost use Rattle.pi_terms.specs.Tree.{Tree};
ghost use Rattle.pi_constraints.specs.State.{IsState};
ghost use Rattle.pi_constraints.specs.Store.{IsTerm, Keeps, Stays};
ghost use Rattle.pi_constraints.specs.Unify.{unified};
ghost use Rattle.pi_unify.specs.Answers.{Answers};
ghost use Rattle.pi_effects.specs.Results.{ShowsSame};
ghost use Rattle.pi_effects.specs.declared.fault.Stop.{Stop};

use pi_constraints::{Ref, StateStore};
use pi_effects::Stop;
use pi_unify::unify;
use std::alloc::Global;

/// `=`: makes two terms equal; false exactly where they can't be. After false or a refusal some of the bindings may stand.
pub fn make_equal<S: StateStore>(alloc: Global, s: &mut S, a: Ref, b: Ref) -> Result<bool, Stop>
    ensures keeps { Keeps (S.seen s.old) (S.seen s.new) }
    ensures unifies { IfOk result (λ one. (t u : Tree) → IsState (S.seen s.old).now.state → IsTerm (S.seen s.old) a t →
        IsTerm (S.seen s.old) b u → Answers (unified (S.seen s.old).now.state t u) one (S.seen s.new).now.state) }
    ensures err { IfErr result (λ stop. stop ≡ Stop.Memory) }
{
    let _root = s.look(a);
    let one = unify(alloc, s, a, b)?;
    Ok(one)
}

/// `!=`: whether two terms can't be made equal. Nothing is bound.
pub fn differ<S: StateStore>(alloc: Global, s: &mut S, a: Ref, b: Ref) -> Result<bool, Stop>
    ensures stays { Stays (S.seen s.old) (S.seen s.new) }
    ensures shows { (t u : Tree) → IsState (S.seen s.old).now.state → IsTerm (S.seen s.old) a t → IsTerm (S.seen s.old) b u →
        ShowsSame (S.seen s.old) result (Ok (is_none (unified (S.seen s.old).now.state t u))) }
{
    let mark = s.mark()?;
    let found = make_equal(alloc, s, a, b);
    s.undo(&mark);
    let one = found?;
    Ok(!one)
}
