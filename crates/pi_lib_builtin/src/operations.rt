//! Functions on integers. A User's Guide to Picat, 'Arithmetic'; the 128 bits and the names of faults are own.
ghost use Rattle.std.specs.Prelude.{pos};
ghost use Rattle.std.specs.Int.{int_min, int_max};
ghost use Rattle.pi_effects.specs.Value.{value_of};
ghost use Rattle.pi_terms.specs.Tree.{Tree};
ghost use Rattle.pi_constraints.specs.Value.{IsAcyclic};
ghost use Rattle.pi_constraints.specs.State.{bindings};
ghost use Rattle.pi_constraints.specs.Store.{IsTerm, Stays};
ghost use Rattle.pi_effects.specs.Answer.{integer_then, integers_then};
ghost use Rattle.pi_effects.specs.Integers.{outcome_then, number};
ghost use Rattle.pi_effects.specs.Results.{ShowsTerm};

use pi_constraints::{Ref, StateStore};
use pi_effects::{Op, Stop, evaluate, integer};

/// The value of an operation with one argument: `-`, `abs`, `sign` or `~`.
pub fn evaluate_one<S: StateStore>(s: &mut S, op: Op, a: Ref) -> Result<Ref, Stop>
    ensures stays { Stays (S.seen s.old) (S.seen s.new) }
    ensures shows { (t : Tree) → IsAcyclic (bindings (S.seen s.old).now.state) → IsTerm (S.seen s.old) a t →
        ShowsTerm (S.seen s.old) (S.seen s.new) result
        (integer_then (S.seen s.old).now.state t (λ m. outcome_then (value_of op m (pos 0)) number)) }
{
    let m = integer(s, a)?;
    let value = evaluate(op, m, 0)?;
    Ok(s.put_int(value)?)
}

/// The value of an operation with two arguments.
pub fn evaluate_two<S: StateStore>(s: &mut S, op: Op, a: Ref, b: Ref) -> Result<Ref, Stop>
    ensures stays { Stays (S.seen s.old) (S.seen s.new) }
    ensures shows { (t u : Tree) → IsAcyclic (bindings (S.seen s.old).now.state) → IsTerm (S.seen s.old) a t →
        IsTerm (S.seen s.old) b u → ShowsTerm (S.seen s.old) (S.seen s.new) result
        (integers_then (S.seen s.old).now.state t u (λ m n. outcome_then (value_of op m n) number)) }
{
    let m = integer(s, a)?;
    let n = integer(s, b)?;
    let value = evaluate(op, m, n)?;
    Ok(s.put_int(value)?)
}

/// `+` with one argument: the integer itself.
pub fn same_integer<S: StateStore>(s: &mut S, a: Ref) -> Result<Ref, Stop>
    ensures stays { Stays (S.seen s.old) (S.seen s.new) }
    ensures shows { (t : Tree) → IsAcyclic (bindings (S.seen s.old).now.state) → IsTerm (S.seen s.old) a t →
        ShowsTerm (S.seen s.old) (S.seen s.new) result (integer_then (S.seen s.old).now.state t number) }
{
    let m = integer(s, a)?;
    Ok(s.put_int(m)?)
}

/// `min/2`.
pub fn least<S: StateStore>(s: &mut S, a: Ref, b: Ref) -> Result<Ref, Stop>
    ensures stays { Stays (S.seen s.old) (S.seen s.new) }
    ensures shows { (t u : Tree) → IsAcyclic (bindings (S.seen s.old).now.state) → IsTerm (S.seen s.old) a t →
        IsTerm (S.seen s.old) b u → ShowsTerm (S.seen s.old) (S.seen s.new) result
        (integers_then (S.seen s.old).now.state t u (λ m n. number (int_min m n))) }
{
    let m = integer(s, a)?;
    let n = integer(s, b)?;
    Ok(s.put_int(m.min(n))?)
}

/// `max/2`.
pub fn greatest<S: StateStore>(s: &mut S, a: Ref, b: Ref) -> Result<Ref, Stop>
    ensures stays { Stays (S.seen s.old) (S.seen s.new) }
    ensures shows { (t u : Tree) → IsAcyclic (bindings (S.seen s.old).now.state) → IsTerm (S.seen s.old) a t →
        IsTerm (S.seen s.old) b u → ShowsTerm (S.seen s.old) (S.seen s.new) result
        (integers_then (S.seen s.old).now.state t u (λ m n. number (int_max m n))) }
{
    let m = integer(s, a)?;
    let n = integer(s, b)?;
    Ok(s.put_int(m.max(n))?)
}
