//! Bodies, conditions and heads: what clauses are made of.
ghost use Rattle.std.specs.Prelude.{◌≡◌, ◌++◌, map, option_map, option_copied, IfOk};
ghost use Rattle.pi_syntax.specs.ExpTree.{exp_tree};
ghost use Rattle.pi_core.specs.CoreTree.{pattern_trees, pred_tree};
ghost use Rattle.pi_meaning.specs.OverNames.WrittenRules.{head_arguments};
ghost use Rattle.pi_rewrite_spec.specs.Values.{slot_patterns as patterns_of};
ghost use Rattle.pi_rewrite_spec.specs.Goals.{in_turn as turn_of};
ghost use Rattle.pi_rewrite_spec.specs.Written.{goal_of};
ghost use Rattle.pi_rewrite_spec.specs.Helpers.{goal_helpers};
ghost use Rattle.pi_rewrite_spec.specs.Programs.{option_goals, option_helpers};
ghost use Rattle.pi_rewrite_spec.specs.Clauses.{as_guard as guard_as, guard_of, is_truth as is_truth_tree};
ghost use Rattle.pi_rewrite_sites.specs.SiteOf.{site_of};
ghost use Rattle.pi_rewrite.specs.Built.{is_true_node};

use pi_core::{CoreGoal, CorePred, GoalNode, Patterns};
use pi_rewrite_goals::{in_turn, lower_goal};
use pi_rewrite_sites::Site;
use pi_rewrite_slots::{Slots, slot_patterns};
use pi_syntax::Exp;
use std::alloc::{AllocError, Global};

/// The patterns of a head's arguments.
#[tactic(auto, unfolding(pi_syntax::specs::ExpTree::exp_tree, pi_core::specs::CoreTree::pattern_trees, pi_rewrite_spec::specs::Values::slot_patterns))]
pub(crate) fn lower_head<'a>(
    alloc: Global,
    head: &'a Exp,
    slots: &mut Slots<'a>,
) -> Result<Patterns, AllocError>
    ensures are { IfOk result (λ made. pattern_trees made.items ≡ (patterns_of (head_arguments (exp_tree head.now)) slots.old).forms) }
    ensures slots { IfOk result (λ _. slots.new ≡ (patterns_of (head_arguments (exp_tree head.now)) slots.old).names) }
{
    match head {
        Exp::Call(_, args) => {
            let made = slot_patterns(alloc, args.as_slice(), slots)?;
            Ok(made)
        }
        _ => Ok(Patterns::new(alloc)),
    }
}

/// The goal that a body is, with the helpers of its loops behind others.
pub(crate) fn lower_body<'a>(
    alloc: Global,
    site: &Site<'a>,
    body: &'a Exp,
    slots: &mut Slots<'a>,
    helpers: &mut Vec<CorePred>,
) -> Result<CoreGoal, AllocError>
    ensures is { IfOk result (λ made. made ≡ turn_of (goal_of (site_of site.now) (exp_tree body.now) slots.old).goals) }
    ensures slots { IfOk result (λ _. slots.new ≡ (goal_of (site_of site.now) (exp_tree body.now) slots.old).names) }
    ensures helpers { IfOk result (λ _. map pred_tree helpers.new.items ≡
        map pred_tree helpers.old.items ++ goal_helpers (site_of site.now) (exp_tree body.now)) }
{
    let mut goals = Vec::new(alloc);
    lower_goal(alloc, site, body, slots, &mut goals, helpers)?;
    let made = in_turn(alloc, goals)?;
    Ok(made)
}

/// The condition of a clause, with the helpers of its loops behind others; `truth` where there is none.
pub(crate) fn lower_guard<'a>(
    alloc: Global,
    site: &Site<'a>,
    cond: Option<&'a Exp>,
    slots: &mut Slots<'a>,
    helpers: &mut Vec<CorePred>,
) -> Result<CoreGoal, AllocError>
    ensures is { IfOk result (λ made. made ≡ guard_of (option_map exp_tree (option_copied cond.entry))
        (option_goals (site_of site.now) (option_map exp_tree (option_copied cond.entry)) slots.old)) }
    ensures slots { IfOk result (λ _. slots.new ≡
        (option_goals (site_of site.now) (option_map exp_tree (option_copied cond.entry)) slots.old).names) }
    ensures helpers { IfOk result (λ _. map pred_tree helpers.new.items ≡
        map pred_tree helpers.old.items ++ option_helpers (site_of site.now) (option_map exp_tree (option_copied cond.entry))) }
{
    match cond {
        None => {
            let made = CoreGoal::truth(alloc)?;
            Ok(made)
        }
        Some(cond) => {
            let goal = lower_body(alloc, site, cond, slots, helpers)?;
            let made = as_guard(alloc, goal)?;
            Ok(made)
        }
    }
}

/// The goal as a condition: `truth` alone would stand for none.
fn as_guard(alloc: Global, goal: CoreGoal) -> Result<CoreGoal, AllocError>
    ensures { IfOk result (λ made. made ≡ guard_as goal) }
{
    if !is_truth(&goal) {
        return Ok(goal);
    }
    let mut goals = Vec::new(alloc);
    goals.push(goal)?;
    let made = CoreGoal::seq(alloc, goals.as_slice())?;
    Ok(made)
}

/// Whether a goal is `truth`.
fn is_truth(goal: &CoreGoal) -> bool
    ensures { result ≡ is_truth_tree goal.now }
{
    is_true_node(goal.node(0))
}

fn is_true_node(node: GoalNode<'_>) -> bool
    ensures { result ≡ is_true_node node.entry }
{
    matches!(node, GoalNode::True)
}

/// Goals that may be left out, behind those that stand before them, with the helpers of their loops behind others.
pub(crate) fn lower_goal_or_none<'a>(
    alloc: Global,
    site: &Site<'a>,
    body: Option<&'a Exp>,
    slots: &mut Slots<'a>,
    goals: &mut Vec<CoreGoal>,
    helpers: &mut Vec<CorePred>,
) -> Result<(), AllocError>
    ensures goals { IfOk result (λ _. goals.new.items ≡
        goals.old.items ++ (option_goals (site_of site.now) (option_map exp_tree (option_copied body.entry)) slots.old).goals) }
    ensures slots { IfOk result (λ _. slots.new ≡
        (option_goals (site_of site.now) (option_map exp_tree (option_copied body.entry)) slots.old).names) }
    ensures helpers { IfOk result (λ _. map pred_tree helpers.new.items ≡
        map pred_tree helpers.old.items ++ option_helpers (site_of site.now) (option_map exp_tree (option_copied body.entry))) }
{
    match body {
        None => Ok(()),
        Some(body) => {
            lower_goal(alloc, site, body, slots, goals, helpers)?;
            Ok(())
        }
    }
}
