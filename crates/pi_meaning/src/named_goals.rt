//! The goals by which `call` runs what a term names.
ghost use Rattle.std.specs.Prelude.{◌≡◌, ◌∷◌, [], List, ℕ, Some, IfOk};
ghost use Rattle.pi_core.specs.GoalTree.{GoalTree, tick, seq, goals_of};
ghost use Rattle.pi_core.specs.CoreTree.{PredTree};
ghost use Rattle.pi_meaning.specs.Shared.Names.{is_call, is_catch};
ghost use Rattle.pi_meaning.specs.Machine.NamedGoals.{goal_by_name, slots_from, call_of_slot, catch_of_slots, call_of_slots};

use pi_core::CoreGoal;
use pi_terms::Term;
use std::alloc::{AllocError, Global};

/// The goal by which a name is called with so many arguments, where it is called at all.
pub fn goal_by_name(alloc: Global, name: &str, arity: u32) -> Result<CoreGoal, AllocError>
    ensures { IfOk result (λ made. (preds : List PredTree) (g : GoalTree) → goal_by_name preds name.now arity ≡ Some g → made ≡ g) }
{
    if is_catch(name, arity) {
        return catch_of_slots(alloc);
    }
    if is_call(name, arity as usize) {
        return call_of_slots(alloc, arity);
    }
    let slots = slots_below(alloc, arity)?;
    CoreGoal::call(alloc, name, &slots)
}

/// Whether a call is one of a term: `call` with 1 to 8 arguments.
pub fn is_call(name: &str, count: usize) -> bool
    ensures { result ≡ is_call name.now count }
{
    1 <= count && count <= 8 && name == "call"
}

/// Whether a call catches what a term raises.
fn is_catch(name: &str, arity: u32) -> bool
    ensures { result ≡ is_catch name.now arity }
{
    arity == 3 && name == "catch"
}

/// The calls of the terms in three slots as `catch` has them, behind a Tick.
fn catch_of_slots(alloc: Global) -> Result<CoreGoal, AllocError>
    ensures { IfOk result (λ made. made ≡ catch_of_slots) }
{
    let goal = call_of_slot(alloc, 0)?;
    let handler = call_of_slot(alloc, 2)?;
    let caught = CoreGoal::catch(alloc, goal, &Term::var(alloc, 1)?, handler)?;
    behind_tick(alloc, caught)
}

/// The call of the terms in so many slots, behind a Tick.
fn call_of_slots(alloc: Global, arity: u32) -> Result<CoreGoal, AllocError>
    ensures { IfOk result (λ made. made ≡ call_of_slots arity) }
{
    let slots = slots_below(alloc, arity)?;
    let called = CoreGoal::call(alloc, "call", &slots)?;
    behind_tick(alloc, called)
}

/// The call of the term in a slot.
fn call_of_slot(alloc: Global, slot: u64) -> Result<CoreGoal, AllocError>
    ensures { IfOk result (λ made. made ≡ call_of_slot slot) }
{
    let slot = Term::var(alloc, slot)?;
    CoreGoal::call(alloc, "call", &[slot])
}

/// A goal behind a Tick.
fn behind_tick(alloc: Global, goal: CoreGoal) -> Result<CoreGoal, AllocError>
    ensures { IfOk result (λ made. made ≡ seq (goals_of (tick ∷ goal ∷ []))) }
{
    let mut goals = Vec::new(alloc);
    goals.push(CoreGoal::tick(alloc)?)?;
    goals.push(goal)?;
    CoreGoal::seq(alloc, &goals)
}

/// So many slots, from the first one on.
#[tactic(auto, unfolding(crate::specs::Machine::NamedGoals::slots_from))]
fn slots_below(alloc: Global, count: u32) -> Result<Vec<Term>, AllocError>
    ensures { IfOk result (λ made. made.items ≡ slots_from 0 count) }
{
    let mut slots = Vec::new(alloc);
    for i in 0..count {
        slots.push(Term::var(alloc, u64::from(i))?)?;
    }
    Ok(slots)
}
