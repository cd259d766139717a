//! Loops as goals: what stands in their turns goes into helpers.
ghost use Rattle.std.specs.Prelude.{IfOk};
ghost use Rattle.pi_syntax.specs.ExpTree.{exp_tree};
ghost use Rattle.pi_rewrite_spec.specs.Slots.{SlotNames};
ghost use Rattle.pi_rewrite_sites.specs.SiteOf.{site_of};
ghost use Rattle.pi_rewrite_goals.specs.Lowering.{Puts, so_far};
ghost use Rattle.pi_rewrite_goals.specs.Shapes.{IsForeach, IsWhile, IsDo};
ghost use Rattle.pi_rewrite_goals.specs.Opening.{HasBegun};

use crate::goals::push_goal;
use crate::loops::{begin_do, begin_while, end_do, end_while};
use crate::units::open_units;
use crate::whole::{Iterating, begin_foreach, end_foreach};
use pi_core::{CoreGoal, CorePred};
use pi_rewrite_loops::push_fail;
use pi_rewrite_sites::Site;
use pi_rewrite_slots::{Slots, both};
use pi_syntax::Exp;
use std::alloc::{AllocError, Global};

/// Puts a loop over iterators and tests behind the other goals.
#[cycle(lowering)]
pub(crate) fn push_foreach<'a>(
    alloc: Global,
    site: &Site<'a>,
    exp: &'a Exp,
    slots: &mut Slots<'a>,
    goals: &mut Vec<CoreGoal>,
    helpers: &mut Vec<CorePred>,
) -> Result<(), AllocError>
    ensures { IfOk result (λ _. IsForeach exp.now →
        Puts (site_of site.now) (exp_tree exp.now)
        (so_far slots.old goals.old.items helpers.old.items) (so_far slots.new goals.new.items helpers.new.items)) }
{
    match exp {
        Exp::Foreach(units, body) => {
            let units = units.as_slice();
            let mut begun = begin_foreach(alloc, site, units, body, slots)?;
            let put = push_begun(alloc, site, exp, &mut begun, slots, goals, helpers);
            drop(begun);
            put
        }
        _ => push_fail(alloc, goals),
    }
}

/// Puts a loop over iterators and tests that has begun behind the other goals.
#[cycle(lowering)]
fn push_begun<'a>(
    alloc: Global,
    site: &Site<'a>,
    exp: &'a Exp,
    begun: &mut Iterating<'a>,
    slots: &mut Slots<'a>,
    goals: &mut Vec<CoreGoal>,
    helpers: &mut Vec<CorePred>,
) -> Result<(), AllocError>
    ensures { IfOk result (λ _. IsForeach exp.now → (ns : SlotNames) →
        HasBegun (site_of site.now) (exp_tree exp.now) ns begun.old slots.old →
        Puts (site_of site.now) (exp_tree exp.now)
        (so_far ns goals.old.items helpers.old.items) (so_far slots.new goals.new.items helpers.new.items)) }
{
    match exp {
        Exp::Foreach(units, body) => {
            let last = &mut begun.inside;
            let mut opened = open_units(
                alloc,
                begun.ending,
                &begun.inner,
                units.as_slice(),
                last,
                helpers,
            )?;
            push_goal(
                alloc,
                &last.site,
                body,
                &mut last.slots,
                &mut last.goals,
                helpers,
            )?;
            end_foreach(
                alloc,
                site,
                &begun.whole,
                &mut opened,
                last,
                slots,
                goals,
                helpers,
            )
        }
        _ => push_fail(alloc, goals),
    }
}

/// Puts a `while` behind the other goals. Each step is done, also where one before it wants memory: so what has begun is
/// dropped in one place.
#[cycle(lowering)]
pub(crate) fn push_while<'a>(
    alloc: Global,
    site: &Site<'a>,
    exp: &'a Exp,
    slots: &mut Slots<'a>,
    goals: &mut Vec<CoreGoal>,
    helpers: &mut Vec<CorePred>,
) -> Result<(), AllocError>
    ensures { IfOk result (λ _. IsWhile exp.now →
        Puts (site_of site.now) (exp_tree exp.now)
        (so_far slots.old goals.old.items helpers.old.items) (so_far slots.new goals.new.items helpers.new.items)) }
{
    match exp {
        Exp::While(test, body) => {
            let mut begun = begin_while(alloc, site, test, body)?;
            let turns = &mut begun;
            let one = push_goal(
                alloc,
                &turns.first,
                test,
                &mut turns.slots,
                &mut turns.one,
                helpers,
            );
            let other = push_goal(
                alloc,
                &turns.second,
                body,
                &mut turns.slots,
                &mut turns.other,
                helpers,
            );
            let put = end_while(alloc, site, turns, slots, goals, helpers);
            drop(begun);
            both(one, both(other, put))
        }
        _ => push_fail(alloc, goals),
    }
}

/// Puts a `do` behind the other goals, as a `while`.
#[cycle(lowering)]
pub(crate) fn push_do<'a>(
    alloc: Global,
    site: &Site<'a>,
    exp: &'a Exp,
    slots: &mut Slots<'a>,
    goals: &mut Vec<CoreGoal>,
    helpers: &mut Vec<CorePred>,
) -> Result<(), AllocError>
    ensures { IfOk result (λ _. IsDo exp.now → Puts (site_of site.now) (exp_tree exp.now)
        (so_far slots.old goals.old.items helpers.old.items) (so_far slots.new goals.new.items helpers.new.items)) }
{
    match exp {
        Exp::DoWhile(body, test) => {
            let mut begun = begin_do(alloc, site, body, test)?;
            let turns = &mut begun;
            let one = push_goal(
                alloc,
                &turns.first,
                body,
                &mut turns.slots,
                &mut turns.one,
                helpers,
            );
            let other = push_goal(
                alloc,
                &turns.second,
                test,
                &mut turns.slots,
                &mut turns.other,
                helpers,
            );
            let put = end_do(alloc, site, turns, slots, goals, helpers);
            drop(begun);
            both(one, both(other, put))
        }
        _ => push_fail(alloc, goals),
    }
}
