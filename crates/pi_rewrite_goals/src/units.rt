//! Iterators and tests of loops: opened from the left, with what stands before each of them put into its clause.
ghost use Rattle.std.specs.Prelude.{map, IfOk};
ghost use Rattle.pi_core.specs.CoreTree.{pred_tree};
ghost use Rattle.pi_syntax.specs.ExpTree.{exp_tree};
ghost use Rattle.pi_syntax.specs.ExpLists.{exps_of};
ghost use Rattle.pi_rewrite_sites.specs.SiteOf.{site_of};
ghost use Rattle.pi_rewrite_loops.specs.Helpers.{ending_of};
ghost use Rattle.pi_rewrite_goals.specs.Planned.{inner_in};
ghost use Rattle.pi_rewrite_goals.specs.Opened.{AreOpen};
ghost use Rattle.pi_rewrite_goals.specs.Opening.{OpensUnit};

use crate::goals::alone;
use crate::inner::{Inner, Planned, plan_of};
use crate::opened::{Inside, Iterated, Open};
use crate::over::push_gone_over;
use pi_core::CorePred;
use pi_rewrite_loops::Ending;
use pi_syntax::Exp;
use std::alloc::{AllocError, Global};
use std::mem;

/// Opens iterators and tests, whose last clause is the one inside then. The first of them ends as the loop does.
#[cycle(lowering)]
pub(crate) fn open_units<'a>(
    alloc: Global,
    ending: Ending,
    inner: &Inner<'a>,
    units: &'a [Exp],
    inside: &mut Inside<'a>,
    helpers: &mut Vec<CorePred>,
) -> Result<Vec<Open<'a>>, AllocError>
    ensures { IfOk result (λ made. AreOpen (site_of inside.old.site) (ending_of ending) (inner_in inner.now)
        (exps_of units.now) inside.old.goals.items inside.old.slots made.items
        (site_of inside.new.site) inside.new.goals.items inside.new.slots (map pred_tree helpers.old.items)
        (map pred_tree helpers.new.items)) }
{
    let mut opened = Vec::new(alloc);
    let mut now = ending;
    for (i, unit) in units.iter().enumerate() {
        let rest = &units[i + 1..];
        let planned = plan_of(alloc, &inside.site, now, inner, unit, rest)?;
        let last = open_unit(alloc, planned, unit, inside, helpers)?;
        opened.push(last)?;
        now = Ending::AsItIs;
    }
    Ok(opened)
}

/// Opens an iterator, as it was planned, or a test.
#[cycle(lowering)]
fn open_unit<'a>(
    alloc: Global,
    planned: Option<Planned<'a>>,
    unit: &'a Exp,
    inside: &mut Inside<'a>,
    helpers: &mut Vec<CorePred>,
) -> Result<Open<'a>, AllocError>
    ensures { IfOk result (λ made. OpensUnit planned.entry (site_of inside.old.site)
        (exp_tree unit.now) inside.old.goals.items inside.old.slots made
        (site_of inside.new.site) inside.new.goals.items inside.new.slots (map pred_tree helpers.old.items)
        (map pred_tree helpers.new.items)) }
{
    match planned {
        None => {
            let behind = inside.site.behind(alloc, unit)?;
            let test = alone(alloc, &inside.site, unit, &mut inside.slots, helpers)?;
            let before = mem::replace(&mut inside.goals, Vec::new(alloc));
            inside.site = behind;
            Ok(Open::Test(test, before))
        }
        Some(planned) => {
            let is_range = push_gone_over(
                alloc,
                &inside.site,
                &planned.whole,
                unit,
                &mut inside.slots,
                &mut inside.goals,
                helpers,
            )?;
            let Planned {
                whole,
                turn,
                element,
                site,
                slots: within,
            } = planned;
            let goals = mem::replace(&mut inside.goals, Vec::new(alloc));
            let slots = mem::replace(&mut inside.slots, within);
            inside.site = site;
            Ok(Open::Iterator(Iterated {
                whole,
                turn,
                element,
                is_range,
                goals,
                slots,
            }))
        }
    }
}
