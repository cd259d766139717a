//! Where a goal began, and the constraints that are due after it.
ghost use Rattle.std.specs.Prelude.{◌≡◌, IfOk};
ghost use Rattle.pi_constraints.specs.State.{State, IsState};
ghost use Rattle.pi_constraints.specs.Store.{Stays};
ghost use Rattle.pi_settling.specs.Calm.{IsCalm};
ghost use Rattle.pi_queue.specs.Waiting.{AreAdded};
ghost use Rattle.pi_meaning.specs.Shared.Follows.{Follows};
ghost use Rattle.pi_engine_settle.specs.Due.{IsDueFor, SinceIs, AreOnChanged, IsFrom};

use pi_constraints::{Places, StateStore};
use pi_queue::{Due, wake};
use std::alloc::{AllocError, Global};

/// Where a goal began: a mark, and how many constraints were posted then. (Own.)
#[derive(Drop)]
pub struct Since<M> {
    pub mark: M,
    pub constraints: u64,
}

/// Remembers where a goal begins. There is nothing to remember where no constraint is posted, since none can become due then
/// but those that the goal posts. (Own.)
///
/// # Errors
///
/// Where memory is wanted; the store stays as it was.
#[inline(always)]
pub fn begin<S: StateStore>(store: &mut S) -> Result<Option<Since<S::Mark>>, AllocError>
    ensures stays { Stays (S.seen store.old) (S.seen store.new) }
    ensures since { IfOk result (λ since. SinceIs (S.seen store.new) (S.seen store.old).now.state since) }
{
    let constraints = store.constraints();
    if constraints == 0 {
        return Ok(None);
    }
    let mark = store.mark()?;
    Ok(Some(Since { mark, constraints }))
}

/// The constraints that are due after a goal that began there: those that it posted, and those of a variable that is bound now or
/// has another domain. Each stands there once. While no constraint is posted this costs one comparison. (Own.)
///
/// # Errors
///
/// Where memory is wanted.
pub fn due_since<S: StateStore>(
    alloc: Global,
    store: &S,
    since: &Option<Since<S::Mark>>,
) -> Result<Places, AllocError>
    ensures { IfOk result (λ due. (before : State) → SinceIs (S.seen store.now) before since.now → IsCalm before →
        Follows before (S.seen store.now).now.state → IsState (S.seen store.now).now.state →
        IsDueFor before (S.seen store.now).now.state due) }
{
    let end = store.constraints();
    if end == 0 {
        return Ok(Places::new(alloc));
    }
    let mut due = Due::new(alloc);
    let first = add_changed(alloc, store, since, &mut due)?;
    add_from(first, end, &mut due)?;
    take_all(alloc, &mut due)
}

/// Adds the constraints of a variable that changed since a goal began, and answers how many were posted then.
fn add_changed<S: StateStore>(
    alloc: Global,
    store: &S,
    since: &Option<Since<S::Mark>>,
    due: &mut Due,
) -> Result<u64, AllocError>
    ensures { IfOk result (λ first. (before : State) → SinceIs (S.seen store.now) before since.now →
        Follows before (S.seen store.now).now.state → IsState (S.seen store.now).now.state →
        AreOnChanged since.now before (S.seen store.now).now.state first due.old due.new) }
{
    match since {
        None => Ok(0),
        Some(since) => {
            let changed = store.changed_since(alloc, &since.mark)?;
            wake(alloc, store, changed.as_slice(), due)?;
            Ok(since.constraints)
        }
    }
}

/// Adds the numbers from one on, below another.
fn add_from(first: u64, end: u64, due: &mut Due) -> Result<(), AllocError>
    ensures { IfOk result (λ _. AreAdded (IsFrom first end) due.old due.new) }
{
    for i in first..end {
        due.add(i)?;
    }
    Ok(())
}

/// Takes all numbers that wait, in their order.
fn take_all(alloc: Global, due: &mut Due) -> Result<Places, AllocError>
    ensures { IfOk result (λ all. all ≡ due.old) }
{
    let mut numbers = Vec::new(alloc);
    while let Some(i) = due.take() {
        numbers.push(i)?;
    }
    Ok(Places::from_vec(numbers))
}
