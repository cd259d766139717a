//! The constraints of variables that lost a value are put behind those that wait.
ghost use Rattle.std.specs.Prelude.{◌≡◌, ◌≢◌, [], ℕ, ◌<◌, IfOk, AllPairs, Contains};
ghost use Rattle.pi_constraints.specs.Value.{IsAcyclic};
ghost use Rattle.pi_constraints.specs.State.{bindings, next};
ghost use Rattle.pi_constraints.specs.Store.{IsPostedOn};
ghost use Rattle.pi_queue.specs.Waiting.{AreAdded, IsOnSome};

use crate::due::Due;
use pi_constraints::StateStore;
use std::alloc::{AllocError, Global};

/// Puts the constraints of variables after those that wait, each that doesn't wait yet, once. (Own.)
pub fn wake<S: StateStore>(
    alloc: Global,
    s: &S,
    variables: &[u64],
    waiting: &mut Due,
) -> Result<(), AllocError>
    ensures { IfOk result (λ _. IsAcyclic (bindings (S.seen s.now).now.state) →
        ((n : ℕ) → Contains variables.now n → n < next (S.seen s.now).now.state) →
        AreAdded (IsOnSome (S.seen s.now).now.state variables.now) waiting.old waiting.new) }
{
    for k in 0..variables.len() {
        wake_on(alloc, s, variables[k], waiting)?;
    }
    Ok(())
}

/// The same of one variable.
fn wake_on<S: StateStore>(alloc: Global, s: &S, v: u64, waiting: &mut Due) -> Result<(), AllocError>
    ensures { IfOk result (λ _. IsAcyclic (bindings (S.seen s.now).now.state) → v < next (S.seen s.now).now.state →
        AreAdded (IsPostedOn (S.seen s.now).now.state v) waiting.old waiting.new) }
{
    let posted = s.posted_on(alloc, v)?;
    add_all(waiting, posted.as_slice())?;
    Ok(())
}

/// Puts numbers behind those that wait.
pub(crate) fn add_all(waiting: &mut Due, numbers: &[u64]) -> Result<(), AllocError>
    ensures added { IfOk result (λ _. AreAdded (Contains numbers.now) waiting.old waiting.new) }
    ensures new { IfOk result (λ _. AllPairs (λ i j. i ≢ j) numbers.now → waiting.old ≡ [] → waiting.new ≡ numbers.now) }
{
    for k in 0..numbers.len() {
        waiting.add(numbers[k])?;
    }
    Ok(())
}
