//! How many nodes each goal in a goal has.
ghost use Rattle.std.specs.Prelude.{◌≡◌, ◌+◌, ◌<◌, IfOk};
ghost use Rattle.pi_core.specs.GoalTree.{GoalTree, nodes, subgoal, child_goals};
ghost use Rattle.pi_engine_code.specs.Laid.{Sized};

use pi_core::{CoreGoal, GoalNode};
use std::alloc::{AllocError, Global};

/// The sizes of the goals in a goal, in prefix order: each one's number of nodes.
pub fn sizes_of(alloc: Global, goal: &CoreGoal) -> Result<Vec<usize>, AllocError>
    ensures ok { IfOk result (λ sizes. Sized goal.now sizes.items 0) }
{
    let mut sizes = counts_of(alloc, goal)?;
    let mut i = sizes.len();
    while i > 0 {
        i -= 1;
        sizes[i] = size_at(&sizes, i);
    }
    Ok(sizes)
}

/// The numbers of child goals, in prefix order.
fn counts_of(alloc: Global, goal: &CoreGoal) -> Result<Vec<usize>, AllocError>
    ensures ok { IfOk result (λ counts. Sized goal.now counts.items (nodes goal.now)) }
{
    let mut counts = Vec::new(alloc);
    for i in 0..goal.nodes() {
        counts.push(child_count(goal.node(i)))?;
    }
    Ok(counts)
}

/// How many child goals a node has.
pub fn child_count(node: GoalNode<'_>) -> usize
    ensures { result ≡ child_goals node.entry }
{
    match node {
        GoalNode::Seq(count) | GoalNode::Alt(count) => count,
        GoalNode::If => 3,
        GoalNode::Not | GoalNode::Once | GoalNode::Collect(_, _) | GoalNode::Count(_) => 1,
        GoalNode::Catch(_) => 2,
        GoalNode::True
        | GoalNode::Fail
        | GoalNode::Tick
        | GoalNode::Call(_, _)
        | GoalNode::Apply(_, _, _) => 0,
    }
}

/// The size of the goal at a node, whose number of child goals is known, and the sizes of those behind it.
fn size_at(sizes: &[usize], i: usize) -> usize
    requires { (g : GoalTree) × (i < nodes g) × Sized g sizes.now (i + 1) }
    ensures { (g : GoalTree) → i < nodes g → Sized g sizes.now (i + 1) → result ≡ nodes (subgoal g i) }
{
    let mut at = i + 1;
    for _k in 0..sizes[i] {
        at += sizes[at];
    }
    at - i
}
