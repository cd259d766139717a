//! Goals: each is put behind those that stand before.
ghost use Rattle.std.specs.Prelude.{◌≡◌, ◌∷◌, ◌++◌, [], map, IfOk};
ghost use Rattle.pi_core.specs.GoalTree.{GoalTree};
ghost use Rattle.pi_core.specs.CoreTree.{pred_tree};
ghost use Rattle.pi_syntax.specs.ExpTree.{exp_tree, or as any};
ghost use Rattle.pi_syntax.specs.ExpLists.{exps_of};
ghost use Rattle.pi_rewrite_slots.specs.Branches.{branches_in};
ghost use Rattle.pi_rewrite_spec.specs.Written.{goal_of, all_of};
ghost use Rattle.pi_rewrite_spec.specs.Helpers.{goal_helpers, conjunct_helpers, branch_helpers};
ghost use Rattle.pi_rewrite_sites.specs.SiteOf.{site_of};
ghost use Rattle.pi_rewrite_loops.specs.Parts.{AreGoals, IsAlone};
ghost use Rattle.pi_rewrite_goals.specs.Lowering.{With, Puts, so_far};
ghost use Rattle.pi_rewrite_goals.specs.Shapes.{IsIf, IsArrow};
ghost use Rattle.pi_rewrite_goals.specs.Joined.{chosen as chosen_of, IsBranch, AreBranches, AreConditions};

use crate::branches::{Branch, Condition, chosen, closed};
use crate::calls::{atom_goal, push_call};
use crate::put::push_made;
use crate::turns::{push_do, push_foreach, push_while};
use pi_core::{CoreGoal, CorePred};
use pi_rewrite_loops::{in_turn, one, push_fail};
use pi_rewrite_sites::Site;
use pi_rewrite_slots::Slots;
use pi_syntax::Exp;
use std::alloc::{AllocError, Global};

/// Puts the goals that a goal comes to behind the others, and the helpers of its loops behind those before. Errors: no
/// memory.
pub fn lower_goal<'a>(
    alloc: Global,
    site: &Site<'a>,
    exp: &'a Exp,
    slots: &mut Slots<'a>,
    goals: &mut Vec<CoreGoal>,
    helpers: &mut Vec<CorePred>,
) -> Result<(), AllocError>
    ensures goals { IfOk result (λ _. goals.new.items ≡
        goals.old.items ++ (goal_of (site_of site.now) (exp_tree exp.now) slots.old).goals) }
    ensures slots { IfOk result (λ _. slots.new ≡ (goal_of (site_of site.now) (exp_tree exp.now) slots.old).names) }
    ensures helpers { IfOk result (λ _. map pred_tree helpers.new.items ≡
        map pred_tree helpers.old.items ++ goal_helpers (site_of site.now) (exp_tree exp.now)) }
{
    push_goal(alloc, site, exp, slots, goals, helpers)?;
    Ok(())
}

#[cycle(lowering)]
pub(crate) fn push_goal<'a>(
    alloc: Global,
    site: &Site<'a>,
    exp: &'a Exp,
    slots: &mut Slots<'a>,
    goals: &mut Vec<CoreGoal>,
    helpers: &mut Vec<CorePred>,
) -> Result<(), AllocError>
    ensures { IfOk result (λ _. With (AreGoals (goal_of (site_of site.now) (exp_tree exp.now) slots.old) goals.old.items
        goals.new.items slots.new) helpers.old.items helpers.new.items (goal_helpers (site_of site.now) (exp_tree exp.now))) }
{
    match exp {
        Exp::Atom(name) => push_made(atom_goal(alloc, name.as_str()), goals),
        Exp::Call(name, args) => push_call(
            alloc,
            site,
            name.as_str(),
            args.as_slice(),
            slots,
            goals,
            helpers,
        ),
        Exp::And(parts) => push_all(alloc, site, parts.as_slice(), slots, goals, helpers),
        Exp::Or(parts) => push_any(alloc, site, parts.as_slice(), slots, goals, helpers),
        Exp::If(_, _) => push_if(alloc, site, exp, slots, goals, helpers),
        Exp::Var(_) => push_fail(alloc, goals),
        Exp::Int(_) => push_fail(alloc, goals),
        Exp::Str(_) => push_fail(alloc, goals),
        Exp::List(_, _) => push_fail(alloc, goals),
        Exp::Array(_) => push_fail(alloc, goals),
        Exp::Quote(_) => push_fail(alloc, goals),
        Exp::Index(_, _) => push_fail(alloc, goals),
        Exp::Range(_, _, _) => push_fail(alloc, goals),
        Exp::At(_, _) => push_fail(alloc, goals),
        Exp::Collect(_, _, _) => push_fail(alloc, goals),
        Exp::Arrow(_, _) => push_aside(alloc, site, exp, slots, goals, helpers),
        Exp::Foreach(_, _) => push_foreach(alloc, site, exp, slots, goals, helpers),
        Exp::While(_, _) => push_while(alloc, site, exp, slots, goals, helpers),
        Exp::DoWhile(_, _) => push_do(alloc, site, exp, slots, goals, helpers),
    }
}

/// Puts a disjunction behind the other goals.
#[cycle(lowering)]
fn push_any<'a>(
    alloc: Global,
    site: &Site<'a>,
    exps: &'a [Exp],
    slots: &mut Slots<'a>,
    goals: &mut Vec<CoreGoal>,
    helpers: &mut Vec<CorePred>,
) -> Result<(), AllocError>
    ensures { IfOk result (λ _. Puts (site_of site.now) (any (exps_of exps.now))
        (so_far slots.old goals.old.items helpers.old.items) (so_far slots.new goals.new.items helpers.new.items)) }
{
    let branches = branches(alloc, site, exps, slots, helpers)?;
    push_made(closed(alloc, branches), goals)
}

/// Puts conditions with their bodies behind the other goals.
#[cycle(lowering)]
fn push_if<'a>(
    alloc: Global,
    site: &Site<'a>,
    exp: &'a Exp,
    slots: &mut Slots<'a>,
    goals: &mut Vec<CoreGoal>,
    helpers: &mut Vec<CorePred>,
) -> Result<(), AllocError>
    ensures { IfOk result (λ _. IsIf exp.now → Puts (site_of site.now) (exp_tree exp.now)
        (so_far slots.old goals.old.items helpers.old.items) (so_far slots.new goals.new.items helpers.new.items)) }
{
    match exp {
        Exp::If(parts, other) => match other {
            Some(other) => {
                let conditions = conditions(alloc, site, parts.as_slice(), slots, helpers)?;
                let behind = site.behind_branches(alloc, parts.as_slice())?;
                let mut last = Vec::new(alloc);
                push_goal(alloc, &behind, other, slots, &mut last, helpers)?;
                push_chosen(alloc, conditions, last, goals)
            }
            None => {
                let conditions = conditions(alloc, site, parts.as_slice(), slots, helpers)?;
                let last = only_truth(alloc)?;
                push_chosen(alloc, conditions, last, goals)
            }
        },
        _ => push_fail(alloc, goals),
    }
}

/// A goal that has one answer, alone.
fn only_truth(alloc: Global) -> Result<Vec<CoreGoal>, AllocError>
    ensures { IfOk result (λ made. made.items ≡ GoalTree.truth ∷ []) }
{
    let truth = CoreGoal::truth(alloc)?;
    one(alloc, truth)
}

/// Puts what stands for an arrow behind the other goals: no goal stands there, though loops in it have their helpers.
#[cycle(lowering)]
fn push_aside<'a>(
    alloc: Global,
    site: &Site<'a>,
    exp: &'a Exp,
    slots: &mut Slots<'a>,
    goals: &mut Vec<CoreGoal>,
    helpers: &mut Vec<CorePred>,
) -> Result<(), AllocError>
    ensures { IfOk result (λ _. IsArrow exp.now →
        Puts (site_of site.now) (exp_tree exp.now)
        (so_far slots.old goals.old.items helpers.old.items) (so_far slots.new goals.new.items helpers.new.items)) }
{
    match exp {
        Exp::Arrow(test, body) => {
            let mut aside = Slots::new(alloc);
            let mut unused = Vec::new(alloc);
            push_goal(alloc, site, test, &mut aside, &mut unused, helpers)?;
            let behind = site.behind(alloc, test)?;
            push_goal(alloc, &behind, body, &mut aside, &mut unused, helpers)?;
            push_fail(alloc, goals)
        }
        _ => push_fail(alloc, goals),
    }
}

/// Puts the goals that conditions come to behind the others.
fn push_chosen(
    alloc: Global,
    conditions: Vec<Condition>,
    other: Vec<CoreGoal>,
    goals: &mut Vec<CoreGoal>,
) -> Result<(), AllocError>
    ensures { IfOk result (λ _. goals.new.items ≡ goals.old.items ++ chosen_of conditions.items other.items) }
{
    let mut more = chosen(alloc, conditions, other)?;
    goals.append(&mut more)?;
    Ok(())
}

/// A goal as one goal.
#[cycle(lowering)]
pub(crate) fn alone<'a>(
    alloc: Global,
    site: &Site<'a>,
    exp: &'a Exp,
    slots: &mut Slots<'a>,
    helpers: &mut Vec<CorePred>,
) -> Result<CoreGoal, AllocError>
    ensures { IfOk result (λ goal. With (IsAlone (goal_of (site_of site.now) (exp_tree exp.now) slots.old) goal slots.new)
        helpers.old.items helpers.new.items (goal_helpers (site_of site.now) (exp_tree exp.now))) }
{
    let mut goals = Vec::new(alloc);
    push_goal(alloc, site, exp, slots, &mut goals, helpers)?;
    in_turn(alloc, goals)
}

/// Puts the goals of a conjunction behind the others.
#[cycle(lowering)]
fn push_all<'a>(
    alloc: Global,
    site: &Site<'a>,
    exps: &'a [Exp],
    slots: &mut Slots<'a>,
    goals: &mut Vec<CoreGoal>,
    helpers: &mut Vec<CorePred>,
) -> Result<(), AllocError>
    ensures { IfOk result (λ _. With (AreGoals (all_of (site_of site.now) (exps_of exps.now) slots.old) goals.old.items
        goals.new.items slots.new) helpers.old.items helpers.new.items (conjunct_helpers (site_of site.now) (exps_of exps.now))) }
{
    let mut here = site.copy(alloc)?;
    for exp in exps {
        push_goal(alloc, &here, exp, slots, goals, helpers)?;
        here.pass(alloc, exp)?;
    }
    Ok(())
}

/// The branches of a disjunction.
#[cycle(lowering)]
fn branches<'a>(
    alloc: Global,
    site: &Site<'a>,
    exps: &'a [Exp],
    slots: &mut Slots<'a>,
    helpers: &mut Vec<CorePred>,
) -> Result<Vec<Branch>, AllocError>
    ensures { IfOk result (λ made. With (AreBranches (site_of site.now) (exps_of exps.now) slots.old made.items slots.new)
        helpers.old.items helpers.new.items (conjunct_helpers (site_of site.now) (exps_of exps.now))) }
{
    let mut here = site.copy(alloc)?;
    let mut made = Vec::new(alloc);
    for exp in exps {
        let branch = branch_of(alloc, &here, exp, slots, helpers)?;
        made.push(branch)?;
        here.pass(alloc, exp)?;
    }
    Ok(made)
}

/// A branch of a disjunction.
#[cycle(lowering)]
fn branch_of<'a>(
    alloc: Global,
    site: &Site<'a>,
    exp: &'a Exp,
    slots: &mut Slots<'a>,
    helpers: &mut Vec<CorePred>,
) -> Result<Branch, AllocError>
    ensures { IfOk result (λ made. With (IsBranch (site_of site.now) (exp_tree exp.now) slots.old made slots.new) helpers.old.items
        helpers.new.items (goal_helpers (site_of site.now) (exp_tree exp.now))) }
{
    match exp {
        Exp::Arrow(test, body) => {
            let behind = site.behind(alloc, test)?;
            let test = alone(alloc, site, test, slots, helpers)?;
            let body = alone(alloc, &behind, body, slots, helpers)?;
            Ok(Branch::Choice(test, body))
        }
        _ => {
            let goal = alone(alloc, site, exp, slots, helpers)?;
            Ok(Branch::Goal(goal))
        }
    }
}

/// Conditions with their bodies.
#[cycle(lowering)]
fn conditions<'a>(
    alloc: Global,
    site: &Site<'a>,
    branches: &'a [(Exp, Exp)],
    slots: &mut Slots<'a>,
    helpers: &mut Vec<CorePred>,
) -> Result<Vec<Condition>, AllocError>
    ensures { IfOk result (λ made. With (AreConditions (site_of site.now)
        (branches_in branches.now) slots.old made.items slots.new) helpers.old.items helpers.new.items
        (branch_helpers (site_of site.now) (branches_in branches.now))) }
{
    let mut here = site.copy(alloc)?;
    let mut made = Vec::new(alloc);
    for branch in branches {
        let test = alone(alloc, &here, &branch.0, slots, helpers)?;
        here.pass(alloc, &branch.0)?;
        let body = alone(alloc, &here, &branch.1, slots, helpers)?;
        here.pass(alloc, &branch.1)?;
        made.push(Condition { test, body })?;
    }
    Ok(made)
}
