//! Branches of disjunctions and conditions, and the goals that they come to.
ghost use Rattle.std.specs.Prelude.{◌≡◌, ◌∷◌, [], reverse, IfOk};
ghost use Rattle.pi_rewrite_spec.specs.Goals.{either_of as either_tree};
ghost use Rattle.pi_rewrite_goals.specs.Joined.{closed as closed_of, chosen as chosen_of};

use pi_core::CoreGoal;
use pi_rewrite_loops::{either_of, in_turn, one};
use std::alloc::{AllocError, Global};

/// A branch of a disjunction: a goal, or an arrow's test and body, whose else part is what stands behind it.
#[derive(Drop)]
pub(crate) enum Branch {
    Goal(CoreGoal),
    Choice(CoreGoal, CoreGoal),
}

/// A condition with its body.
#[derive(Drop)]
pub(crate) struct Condition {
    pub(crate) test: CoreGoal,
    pub(crate) body: CoreGoal,
}

/// The goals that the branches come to, as alternatives.
pub(crate) fn closed(alloc: Global, branches: Vec<Branch>) -> Result<CoreGoal, AllocError>
    ensures { IfOk result (λ made. made ≡ either_tree (closed_of branches.items [])) }
{
    let mut branches = branches;
    let mut behind = Vec::new(alloc);
    while let Some(branch) = branches.pop() {
        behind = before(alloc, branch, behind)?;
    }
    behind.reverse();
    let goal = either_of(alloc, behind)?;
    Ok(goal)
}

/// One branch before those behind it, which stand in `behind` with the last one first.
fn before(alloc: Global, branch: Branch, behind: Vec<CoreGoal>) -> Result<Vec<CoreGoal>, AllocError>
    ensures { IfOk result (λ made. reverse made.items ≡ closed_of (branch ∷ []) (reverse behind.items)) }
{
    let mut behind = behind;
    match branch {
        Branch::Goal(goal) => {
            behind.push(goal)?;
            Ok(behind)
        }
        Branch::Choice(test, body) => {
            behind.reverse();
            let other = either_of(alloc, behind)?;
            let choice = CoreGoal::if_else(alloc, test, body, other)?;
            one(alloc, choice)
        }
    }
}

/// The goals that the conditions come to, over what is done where none holds.
pub(crate) fn chosen(
    alloc: Global,
    conditions: Vec<Condition>,
    other: Vec<CoreGoal>,
) -> Result<Vec<CoreGoal>, AllocError>
    ensures { IfOk result (λ made. made.items ≡ chosen_of conditions.items other.items) }
{
    let mut conditions = conditions;
    let mut other = other;
    while let Some(condition) = conditions.pop() {
        let otherwise = in_turn(alloc, other)?;
        let choice = CoreGoal::if_else(alloc, condition.test, condition.body, otherwise)?;
        other = one(alloc, choice)?;
    }
    Ok(other)
}
