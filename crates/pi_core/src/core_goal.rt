//! Goals of the core language as flat vectors of nodes, and how they are made and looked at.
ghost use Rattle.std.specs.Prelude.{◌≡◌, ◌<◌, ◌+◌, ◌++◌, ◌∷◌, [], length, IfOk};
ghost use Rattle.pi_core.specs.GoalTree.{truth, fail, tick, call, apply, seq, alternatives, if_else, not, once, collect, count, catch, goals_of, no_goals, nodes, nodes_all, subgoal, children, child, child_count, child_goals, count_goals, take_goals, ShowsNode};
ghost use Rattle.pi_core.specs.GoalCells.{arity, over, flat, flat_all, spelled};

use crate::goal_node::{GoalCell, GoalKind, GoalNode};
use pi_terms::{Args, Term, Text};
use std::alloc::{AllocError, Global};
use std::marker::Model;

/// A goal of the core language: one flat vector of nodes in prefix order, so that a number names a place in it. A
/// contract sees it as a tree.
#[derive(Drop)]
pub struct CoreGoal {
    cells: Vec<GoalCell>,
}

impl Model for CoreGoal {
    ghost use Rattle.std.specs.Prelude.{◌≡◌};
    ghost use Rattle.pi_core.specs.GoalTree.{GoalTree};
    ghost use Rattle.pi_core.specs.GoalCells.{flat, goal_of, goal_code};

    ghost Value = { GoalTree };

    ghost coded = { goal_code };

    ghost view = { λ a. goal_of a.cells.items };

    ghost invariant = { λ a. a.cells.items ≡ flat (goal_of a.cells.items) };
}

impl CoreGoal {
    /// The goal that has one answer.
    pub fn truth(alloc: Global) -> Result<CoreGoal, AllocError>
        ensures ok { IfOk result (λ made. made ≡ truth) }
    {
        leaf(alloc, GoalKind::True)
    }

    /// The goal that has none.
    pub fn fail(alloc: Global) -> Result<CoreGoal, AllocError>
        ensures ok { IfOk result (λ made. made ≡ fail) }
    {
        leaf(alloc, GoalKind::Fail)
    }

    /// The goal that counts one Tick and has one answer.
    pub fn tick(alloc: Global) -> Result<CoreGoal, AllocError>
        ensures ok { IfOk result (λ made. made ≡ tick) }
    {
        leaf(alloc, GoalKind::Tick)
    }

    /// The call of a predicate.
    pub fn call(alloc: Global, name: &str, args: &[Term]) -> Result<CoreGoal, AllocError>
        ensures ok { IfOk result (λ made. made ≡ call name.now args.now) }
    {
        let kind = GoalKind::Call(Text::new(alloc, name)?, Args::new(alloc, args)?);
        leaf(alloc, kind)
    }

    /// The call of a function, whose value goes into the slot.
    pub fn apply(
        alloc: Global,
        name: &str,
        args: &[Term],
        slot: u32,
    ) -> Result<CoreGoal, AllocError>
        ensures ok { IfOk result (λ made. made ≡ apply name.now args.now slot) }
    {
        let kind = GoalKind::Apply(Text::new(alloc, name)?, Args::new(alloc, args)?, slot);
        leaf(alloc, kind)
    }

    /// The goals one after the other.
    pub fn seq(alloc: Global, goals: &[CoreGoal]) -> Result<CoreGoal, AllocError>
        ensures ok { IfOk result (λ made. made ≡ seq (goals_of goals.now)) }
    {
        many(alloc, GoalKind::Seq(goals.len()), goals)
    }

    /// The goals as alternatives, in order.
    pub fn alt(alloc: Global, goals: &[CoreGoal]) -> Result<CoreGoal, AllocError>
        ensures ok { IfOk result (λ made. made ≡ alternatives (goals_of goals.now)) }
    {
        many(alloc, GoalKind::Alt(goals.len()), goals)
    }

    /// `then` where `test` has an answer, from its first one, else `other`.
    pub fn if_else(
        alloc: Global,
        test: CoreGoal,
        then: CoreGoal,
        other: CoreGoal,
    ) -> Result<CoreGoal, AllocError>
        ensures ok { IfOk result (λ made. made ≡ if_else test then other) }
    {
        let mut below = Vec::new(alloc);
        move_cells(&mut below, test)?;
        move_cells(&mut below, then)?;
        move_cells(&mut below, other)?;
        over(alloc, GoalKind::If, below)
    }

    /// One answer, with nothing bound, where the goal has none.
    #[tactic(auto, unfolding(crate::specs::GoalTree::goal_at))]
    pub fn not(alloc: Global, goal: CoreGoal) -> Result<CoreGoal, AllocError>
        ensures ok { IfOk result (λ made. made ≡ not goal) }
    {
        unary(alloc, GoalKind::Not, goal)
    }

    /// The goal's first answer.
    #[tactic(auto, unfolding(crate::specs::GoalTree::goal_at))]
    pub fn once(alloc: Global, goal: CoreGoal) -> Result<CoreGoal, AllocError>
        ensures ok { IfOk result (λ made. made ≡ once goal) }
    {
        unary(alloc, GoalKind::Once, goal)
    }

    /// The values of the slot `value` after each answer of the goal, as a list in the slot `into`.
    pub fn collect(
        alloc: Global,
        goal: CoreGoal,
        value: u32,
        into: u32,
    ) -> Result<CoreGoal, AllocError>
        ensures ok { IfOk result (λ made. made ≡ collect goal value into) }
    {
        unary(alloc, GoalKind::Collect(value, into), goal)
    }

    /// The number of the goal's answers, in the slot `into`.
    #[tactic(auto, unfolding(crate::specs::GoalTree::goal_at))]
    pub fn count(alloc: Global, goal: CoreGoal, into: u32) -> Result<CoreGoal, AllocError>
        ensures ok { IfOk result (λ made. made ≡ count goal into) }
    {
        unary(alloc, GoalKind::Count(into), goal)
    }

    /// `goal`, with its answers. Where it ends in an exception, the state is again that of the entry, a copy of the
    /// exception's term is unified with `ball`, and `handler` runs; where they don't unify, the exception goes on. One in
    /// what follows the catch isn't caught.
    pub fn catch(
        alloc: Global,
        goal: CoreGoal,
        ball: &Term,
        handler: CoreGoal,
    ) -> Result<CoreGoal, AllocError>
        ensures ok { IfOk result (λ made. made ≡ catch goal ball.now handler) }
    {
        let kind = GoalKind::Catch(ball.copy(alloc)?);
        let mut below = Vec::new(alloc);
        move_cells(&mut below, goal)?;
        move_cells(&mut below, handler)?;
        over(alloc, kind, below)
    }

    /// The number of nodes.
    pub fn nodes(&self) -> usize
        ensures { result ≡ nodes self.now }
    {
        self.cells.len()
    }

    /// What stands at a node.
    pub fn node(&self, i: usize) -> GoalNode<'_>
        requires { i < nodes self.now }
        ensures shows { ShowsNode (subgoal self.now i) result }
        ensures has { child_count (subgoal self.now i) ≡ child_goals result }
    {
        self.cells[i].kind.node()
    }

    /// The node of the child goal with the number `k`, counted from 0, of the goal at node `i`.
    pub fn child(&self, i: usize, k: usize) -> usize
        requires node { i < nodes self.now }
        requires has { k < child_count (subgoal self.now i) }
        ensures within { result < nodes self.now }
        ensures place { result ≡ i + 1 + nodes_all (take_goals k (children (subgoal self.now i))) }
        ensures is { subgoal self.now result ≡ child (subgoal self.now i) k }
    {
        let cells = self.cells.as_slice();
        let mut at = i + 1;
        for _ in 0..k {
            at += cells[at].size;
        }
        at
    }

    /// Another goal of the same tree.
    pub fn copy(&self, alloc: Global) -> Result<CoreGoal, AllocError>
        ensures ok { IfOk result (λ made. made ≡ self.now) }
    {
        let mut cells = Vec::new(alloc);
        push_cells(&mut cells, &self.cells)?;
        Ok(CoreGoal { cells })
    }
}

/// The goal of this kind over the child goals whose cells stand in `below`.
fn over(alloc: Global, kind: GoalKind, mut below: Vec<GoalCell>) -> Result<CoreGoal, AllocError>
    requires spells { below.items ≡ flat_all (spelled below.items) }
    requires has { count_goals (spelled below.items) ≡ arity kind }
    ensures ok { IfOk result (λ made. made ≡ over kind (spelled below.items)) }
{
    let size = below.len() + 1;
    let mut cells = Vec::with_capacity(alloc, size)?;
    cells.push(GoalCell { kind, size })?;
    cells.append(&mut below)?;
    Ok(CoreGoal { cells })
}

/// The goal of this kind over no child goals.
#[tactic(auto, unfolding(crate::specs::GoalTree::count_goals, crate::specs::GoalTree::subgoals_all, crate::specs::GoalCells::flat_all, crate::specs::GoalCells::spelled))]
fn leaf(alloc: Global, kind: GoalKind) -> Result<CoreGoal, AllocError>
    requires { arity kind ≡ 0 }
    ensures ok { IfOk result (λ made. made ≡ over kind no_goals) }
{
    over(alloc, kind, Vec::new(alloc))
}

/// The goal of this kind over one child goal.
fn unary(alloc: Global, kind: GoalKind, goal: CoreGoal) -> Result<CoreGoal, AllocError>
    requires { arity kind ≡ 1 }
    ensures ok { IfOk result (λ made. made ≡ over kind (goals_of (goal ∷ []))) }
{
    let mut below = Vec::new(alloc);
    move_cells(&mut below, goal)?;
    over(alloc, kind, below)
}

/// The goal of this kind over child goals of which copies are made.
fn many(alloc: Global, kind: GoalKind, goals: &[CoreGoal]) -> Result<CoreGoal, AllocError>
    requires { arity kind ≡ length goals.now }
    ensures ok { IfOk result (λ made. made ≡ over kind (goals_of goals.now)) }
{
    let below = cells_of(alloc, goals)?;
    over(alloc, kind, below)
}

/// Moves the cells of a goal behind the others.
fn move_cells(cells: &mut Vec<GoalCell>, goal: CoreGoal) -> Result<(), AllocError>
    ensures ok { IfOk result (λ _. cells.new.items ≡ cells.old.items ++ flat goal) }
{
    let mut more = goal.cells;
    cells.append(&mut more)
}

/// The cells of the goals, one goal after the other.
fn cells_of(alloc: Global, goals: &[CoreGoal]) -> Result<Vec<GoalCell>, AllocError>
    ensures ok { IfOk result (λ made. made.items ≡ flat_all (goals_of goals.now)) }
{
    let mut cells = Vec::new(alloc);
    for goal in goals {
        push_cells(&mut cells, &goal.cells)?;
    }
    Ok(cells)
}

fn push_cells(cells: &mut Vec<GoalCell>, more: &[GoalCell]) -> Result<(), AllocError>
    ensures ok { IfOk result (λ _. cells.new.items ≡ cells.old.items ++ more.now) }
{
    let alloc = *cells.allocator();
    for cell in more {
        cells.push(cell.copy(alloc)?)?;
    }
    Ok(())
}
