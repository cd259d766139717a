//! What an iterator goes over: the bounds of a range that isn't built, or a list or an array.
ghost use Rattle.std.specs.Prelude.{◌≡◌, ◌++◌, List, ℕ, map, IfOk};
ghost use Rattle.pi_core.specs.CoreTree.{pred_tree};
ghost use Rattle.pi_syntax.specs.ExpTree.{ExpTree, ExpTrees, exp_tree, call, exp as first_exp};
ghost use Rattle.pi_syntax.specs.ExpLists.{exps_of};
ghost use Rattle.pi_rewrite_spec.specs.Helpers.{collection_helpers};
ghost use Rattle.pi_rewrite_sites.specs.SiteOf.{site_of};
ghost use Rattle.pi_rewrite_loops.specs.Helpers.{loop_of, lowered};
ghost use Rattle.pi_rewrite_goals.specs.Planned.{IsOver, IsGoneOver};
ghost use Rattle.pi_rewrite_goals.specs.Lowering.{With};
ghost use Rattle.pi_rewrite_goals.specs.Shapes.{IsSpan, IsStepped};

use crate::gone_over::Over;
use crate::values::{no_value, value};
use pi_core::{CoreGoal, CorePred};
use pi_rewrite_loops::{Bounds, Loop, push_over, push_started, push_through};
use pi_rewrite_sites::Site;
use pi_rewrite_slots::{Reading, Slots, is_flat};
use pi_syntax::Exp;
use pi_terms::Term;
use std::alloc::{AllocError, Global};

/// Puts an iterator behind the goals where it stands, with what it goes over. Answers whether that is a range.
#[cycle(lowering)]
pub(crate) fn push_gone_over<'a>(
    alloc: Global,
    site: &Site<'a>,
    whole: &Loop<'a>,
    unit: &'a Exp,
    slots: &mut Slots<'a>,
    goals: &mut Vec<CoreGoal>,
    helpers: &mut Vec<CorePred>,
) -> Result<bool, AllocError>
    ensures { IfOk result (λ is_range. With (IsGoneOver is_range (site_of site.now) (loop_of whole.now)
        (exp_tree unit.now) slots.old goals.old.items goals.new.items slots.new) helpers.old.items helpers.new.items
        (collection_helpers (site_of site.now) (exp_tree unit.now))) }
{
    push_started(alloc, site.filled, site.before.as_slice(), slots, goals)?;
    let mut found = slots.only(alloc, site.before.as_slice())?;
    let over = over_unit(alloc, site, unit, &mut found, goals, helpers)?;
    match over {
        Over::Range(bounds) => {
            push_through(alloc, whole, bounds, found, slots, goals)?;
            Ok(true)
        }
        Over::Collection(term) => {
            push_over(alloc, whole, term, found, slots, goals)?;
            Ok(false)
        }
    }
}

/// What an iterator goes over.
#[cycle(lowering)]
fn over_unit<'a>(
    alloc: Global,
    site: &Site<'a>,
    unit: &'a Exp,
    slots: &mut Slots<'a>,
    goals: &mut Vec<CoreGoal>,
    helpers: &mut Vec<CorePred>,
) -> Result<Over, AllocError>
    ensures { IfOk result (λ over. With (IsOver over (site_of site.now) (exp_tree unit.now)
        (lowered goals.old.items slots.old) (lowered goals.new.items slots.new)) helpers.old.items helpers.new.items
        (collection_helpers (site_of site.now) (exp_tree unit.now))) }
{
    match unit {
        Exp::Call(_, args) => over_args(alloc, site, args.as_slice(), slots, goals, helpers),
        _ => {
            let term = no_value(alloc, goals)?;
            Ok(Over::Collection(term))
        }
    }
}

/// What an iterator with these arguments goes over: the second of them.
#[cycle(lowering)]
fn over_args<'a>(
    alloc: Global,
    site: &Site<'a>,
    args: &'a [Exp],
    slots: &mut Slots<'a>,
    goals: &mut Vec<CoreGoal>,
    helpers: &mut Vec<CorePred>,
) -> Result<Over, AllocError>
    ensures { IfOk result (λ over. (name : List ℕ) →
        With (IsOver over (site_of site.now) (call name (exps_of args.now))
        (lowered goals.old.items slots.old) (lowered goals.new.items slots.new))
        helpers.old.items helpers.new.items (collection_helpers (site_of site.now) (call name (exps_of args.now)))) }
{
    if args.len() < 2 {
        let term = no_value(alloc, goals)?;
        return Ok(Over::Collection(term));
    }
    over_exp(alloc, site, &args[1], slots, goals, helpers)
}

/// What an iterator goes over whose second argument is this.
#[cycle(lowering)]
fn over_exp<'a>(
    alloc: Global,
    site: &Site<'a>,
    exp: &'a Exp,
    slots: &mut Slots<'a>,
    goals: &mut Vec<CoreGoal>,
    helpers: &mut Vec<CorePred>,
) -> Result<Over, AllocError>
    ensures { IfOk result (λ over. (name : List ℕ) (e : ExpTree) (es : ExpTrees) →
        With (IsOver over (site_of site.now) (call name (first_exp e (first_exp (exp_tree exp.now) es)))
        (lowered goals.old.items slots.old) (lowered goals.new.items slots.new)) helpers.old.items helpers.new.items
        (collection_helpers (site_of site.now) (call name (first_exp e (first_exp (exp_tree exp.now) es))))) }
{
    match exp {
        Exp::Range(_, _, _) => over_range(alloc, site, exp, slots, goals, helpers),
        _ => {
            let term = value(alloc, true, site, exp, slots, goals, helpers)?;
            Ok(Over::Collection(term))
        }
    }
}

/// The bounds of a range, which isn't built.
#[cycle(lowering)]
fn over_range<'a>(
    alloc: Global,
    site: &Site<'a>,
    exp: &'a Exp,
    slots: &mut Slots<'a>,
    goals: &mut Vec<CoreGoal>,
    helpers: &mut Vec<CorePred>,
) -> Result<Over, AllocError>
    ensures { IfOk result (λ over. IsSpan exp.now → (name : List ℕ) (e : ExpTree) (es : ExpTrees) →
        With (IsOver over (site_of site.now) (call name (first_exp e (first_exp (exp_tree exp.now) es)))
        (lowered goals.old.items slots.old) (lowered goals.new.items slots.new)) helpers.old.items helpers.new.items
        (collection_helpers (site_of site.now) (call name (first_exp e (first_exp (exp_tree exp.now) es))))) }
{
    match exp {
        Exp::Range(first, step, last) => match step {
            Some(_) => over_steps(alloc, site, exp, slots, goals, helpers),
            None => {
                let is_last = is_flat(Reading::Plain, last);
                let low = value(alloc, is_last, site, first, slots, goals, helpers)?;
                let behind = site.behind(alloc, first)?;
                let high = value(alloc, true, &behind, last, slots, goals, helpers)?;
                let by = Term::int(alloc, 1)?;
                Ok(Over::Range(Bounds {
                    low,
                    step: by,
                    high,
                }))
            }
        },
        _ => {
            let term = no_value(alloc, goals)?;
            Ok(Over::Collection(term))
        }
    }
}

/// The bounds of a range with a step.
#[cycle(lowering)]
fn over_steps<'a>(
    alloc: Global,
    site: &Site<'a>,
    exp: &'a Exp,
    slots: &mut Slots<'a>,
    goals: &mut Vec<CoreGoal>,
    helpers: &mut Vec<CorePred>,
) -> Result<Over, AllocError>
    ensures { IfOk result (λ over. IsStepped exp.now → (name : List ℕ) (e : ExpTree) (es : ExpTrees) →
        With (IsOver over (site_of site.now) (call name (first_exp e (first_exp (exp_tree exp.now) es)))
        (lowered goals.old.items slots.old) (lowered goals.new.items slots.new)) helpers.old.items helpers.new.items
        (collection_helpers (site_of site.now) (call name (first_exp e (first_exp (exp_tree exp.now) es))))) }
{
    match exp {
        Exp::Range(first, step, last) => match step {
            Some(step) => {
                let is_last = is_flat(Reading::Plain, last);
                let is_end = is_last & is_flat(Reading::Plain, step);
                let low = value(alloc, is_end, site, first, slots, goals, helpers)?;
                let second = site.behind(alloc, first)?;
                let by = value(alloc, is_last, &second, step, slots, goals, helpers)?;
                let third = second.behind(alloc, step)?;
                let high = value(alloc, true, &third, last, slots, goals, helpers)?;
                Ok(Over::Range(Bounds {
                    low,
                    step: by,
                    high,
                }))
            }
            None => {
                let term = no_value(alloc, goals)?;
                Ok(Over::Collection(term))
            }
        },
        _ => {
            let term = no_value(alloc, goals)?;
            Ok(Over::Collection(term))
        }
    }
}
