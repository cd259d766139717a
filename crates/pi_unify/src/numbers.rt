//! New variables in place of those of a term.
ghost use Rattle.std.specs.Prelude.{◌≤◌, length, IfOk, OnErr, Contains};
ghost use Rattle.pi_terms.specs.Tree.{var};
ghost use Rattle.pi_constraints.specs.State.{next};
ghost use Rattle.pi_constraints.specs.Store.{IsTerm};
ghost use Rattle.pi_unify.specs.Copying.{Makes, MakesSome, renumbered};

use pi_constraints::{Ref, StateStore};
use pi_terms::Numbers;
use std::alloc::AllocError;

/// Makes so many new variables. Where that is refused some of them may be made.
pub fn make_variables<S: StateStore>(s: &mut S, count: usize) -> Result<(), AllocError>
    ensures ok { IfOk result (λ _. Makes (S.seen s.old) (S.seen s.new) count) }
    ensures err { OnErr result (MakesSome (S.seen s.old) (S.seen s.new)) }
{
    for _k in 0..count {
        s.new_var()?;
    }
    Ok(())
}

/// The new variable in place of one that was met, where the newest variables stand for all that were met, in order.
pub fn new_variable<S: StateStore>(s: &S, numbers: &Numbers, n: u64) -> Ref
    requires known { Contains numbers.now n }
    ensures { length numbers.now ≤ next (S.seen s.now).now.state →
        IsTerm (S.seen s.now) result (var (renumbered (S.seen s.now).now.state numbers.now n)) }
{
    let behind = numbers.len() - numbers.place(n);
    s.var_ref(s.vars().saturating_sub(behind as u64))
}
