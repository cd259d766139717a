//! Values of expressions with calls in them, by their form: lists and arrays, items by indexes, ranges and comprehensions.
ghost use Rattle.std.specs.Prelude.{◌≡◌, List, IfOk};
ghost use Rattle.pi_core.specs.GoalTree.{GoalTree};
ghost use Rattle.pi_syntax.specs.ExpTree.{exp_tree, list as list_tree, array as array_tree};
ghost use Rattle.pi_syntax.specs.ExpLists.{exps_of};
ghost use Rattle.pi_rewrite_spec.specs.Slots.{SlotNames};
ghost use Rattle.pi_rewrite_spec.specs.Values.{SlotValue};
ghost use Rattle.pi_rewrite_spec.specs.Goals.{indexed_by as indexed_by_of, begins_flat as begins_flat_tree};
ghost use Rattle.pi_rewrite_spec.specs.Sites.{Site as SiteOf, following_sites};
ghost use Rattle.pi_rewrite_spec.specs.Written.{values_in};
ghost use Rattle.pi_rewrite_spec.specs.Helpers.{all_helpers};
ghost use Rattle.pi_rewrite_sites.specs.SiteOf.{site_of};
ghost use Rattle.pi_rewrite_loops.specs.Parts.{IsValue};
ghost use Rattle.pi_rewrite_goals.specs.Lowering.{With, GivesAs, Gives, so_far};
ghost use Rattle.pi_meaning.specs.OverNames.Forms.{ranged as in_range};
ghost use Rattle.pi_rewrite_slots.specs.ReadAs.{reading_of};
ghost use Rattle.pi_rewrite_goals.specs.Shapes.{IsList, IsIndex, IsSpan, IsStepped, IsCollected};
ghost use Rattle.pi_rewrite_goals.specs.Opening.{IsGathering};
ghost use Rattle.pi_rewrite_loops.specs.Helpers.{lowered};

use crate::slotted::{applied_to_three, applied_to_two, of_three, of_two};
use crate::units::open_units;
use crate::values::{no_value, value, values};
use crate::whole::{Comprehension, begin_comprehension, end_comprehension};
use pi_core::{CoreGoal, CorePred};
use pi_rewrite_sites::Site;
use pi_rewrite_slots::{Reading, Slots, is_flat, list_onto};
use pi_syntax::Exp;
use pi_terms::Term;
use std::alloc::{AllocError, Global};

/// A list.
#[cycle(lowering)]
pub(crate) fn listed<'a>(
    alloc: Global,
    site: &Site<'a>,
    exp: &'a Exp,
    slots: &mut Slots<'a>,
    goals: &mut Vec<CoreGoal>,
    helpers: &mut Vec<CorePred>,
) -> Result<Term, AllocError>
    ensures { IfOk result (λ term. IsList exp.now →
        Gives (site_of site.now) (exp_tree exp.now) term
        (so_far slots.old goals.old.items helpers.old.items) (so_far slots.new goals.new.items helpers.new.items)) }
{
    match exp {
        Exp::List(items, tail) => match tail {
            Some(tail) => {
                let parts = values(alloc, true, site, items.as_slice(), slots, goals, helpers)?;
                let behind = site.behind_all(alloc, items.as_slice())?;
                let rest = value(alloc, false, &behind, tail, slots, goals, helpers)?;
                list_onto(alloc, &parts, &rest)
            }
            None => list_of(alloc, site, items.as_slice(), slots, goals, helpers),
        },
        _ => no_value(alloc, goals),
    }
}

/// A list of these items.
#[cycle(lowering)]
fn list_of<'a>(
    alloc: Global,
    site: &Site<'a>,
    exps: &'a [Exp],
    slots: &mut Slots<'a>,
    goals: &mut Vec<CoreGoal>,
    helpers: &mut Vec<CorePred>,
) -> Result<Term, AllocError>
    ensures { IfOk result (λ term. Gives (site_of site.now) (list_tree (exps_of exps.now)) term
        (so_far slots.old goals.old.items helpers.old.items) (so_far slots.new goals.new.items helpers.new.items)) }
{
    let parts = values(alloc, true, site, exps, slots, goals, helpers)?;
    let rest = Term::atom(alloc, "[]")?;
    list_onto(alloc, &parts, &rest)
}

/// An array of these items.
#[cycle(lowering)]
pub(crate) fn array_of<'a>(
    alloc: Global,
    site: &Site<'a>,
    exps: &'a [Exp],
    slots: &mut Slots<'a>,
    goals: &mut Vec<CoreGoal>,
    helpers: &mut Vec<CorePred>,
) -> Result<Term, AllocError>
    ensures { IfOk result (λ term. Gives (site_of site.now) (array_tree (exps_of exps.now)) term
        (so_far slots.old goals.old.items helpers.old.items) (so_far slots.new goals.new.items helpers.new.items)) }
{
    let parts = values(alloc, true, site, exps, slots, goals, helpers)?;
    Term::comp(alloc, "{}", &parts)
}

/// An item by indexes.
#[cycle(lowering)]
pub(crate) fn indexed<'a>(
    alloc: Global,
    site: &Site<'a>,
    exp: &'a Exp,
    slots: &mut Slots<'a>,
    goals: &mut Vec<CoreGoal>,
    helpers: &mut Vec<CorePred>,
) -> Result<Term, AllocError>
    ensures { IfOk result (λ term. IsIndex exp.now →
        Gives (site_of site.now) (exp_tree exp.now) term
        (so_far slots.old goals.old.items helpers.old.items) (so_far slots.new goals.new.items helpers.new.items)) }
{
    match exp {
        Exp::Index(of, places) => {
            let is_last = begins_flat(places.as_slice());
            let whole = value(alloc, is_last, site, of, slots, goals, helpers)?;
            let mut behind = site.behind(alloc, of)?;
            indexed_by(
                alloc,
                &mut behind,
                whole,
                places.as_slice(),
                slots,
                goals,
                helpers,
            )
        }
        _ => no_value(alloc, goals),
    }
}

/// Whether the first of the expressions has no call in it.
fn begins_flat(exps: &[Exp]) -> bool
    ensures { result ≡ begins_flat_tree (exps_of exps.now) }
{
    if exps.is_empty() {
        return false;
    }
    is_flat(Reading::Plain, &exps[0])
}

/// A value that is indexed by one place after the other, from a site that goes on.
#[cycle(lowering)]
fn indexed_by<'a>(
    alloc: Global,
    site: &mut Site<'a>,
    whole: Term,
    places: &'a [Exp],
    slots: &mut Slots<'a>,
    goals: &mut Vec<CoreGoal>,
    helpers: &mut Vec<CorePred>,
) -> Result<Term, AllocError>
    ensures { IfOk result (λ term. With ((v : SlotValue) (before : List GoalTree) →
        IsValue v before goals.old.items whole slots.old →
        IsValue (indexed_by_of v (values_in (following_sites (site_of site.old) (exps_of places.now)) (exps_of places.now))) before
        goals.new.items term slots.new) helpers.old.items helpers.new.items (all_helpers (site_of site.old) (exps_of places.now))) }
{
    let mut item = whole;
    for exp in places {
        let place = value(alloc, true, site, exp, slots, goals, helpers)?;
        site.pass(alloc, exp)?;
        item = applied_to_two(alloc, "in", item, place, slots, goals)?;
    }
    Ok(item)
}

/// A range that is read so: it may stay as one.
#[cycle(lowering)]
pub(crate) fn read_range<'a>(
    alloc: Global,
    reading: Reading,
    site: &Site<'a>,
    exp: &'a Exp,
    slots: &mut Slots<'a>,
    goals: &mut Vec<CoreGoal>,
    helpers: &mut Vec<CorePred>,
) -> Result<Term, AllocError>
    ensures { IfOk result (λ term. IsSpan exp.now →
        GivesAs (reading_of reading) (site_of site.now) (exp_tree exp.now) term
        (so_far slots.old goals.old.items helpers.old.items) (so_far slots.new goals.new.items helpers.new.items)) }
{
    if reading.is_ranged() {
        return kept_range(alloc, site, exp, slots, goals, helpers);
    }
    ranged(alloc, site, exp, slots, goals, helpers)
}

/// A range that stays as one.
#[cycle(lowering)]
fn kept_range<'a>(
    alloc: Global,
    site: &Site<'a>,
    exp: &'a Exp,
    slots: &mut Slots<'a>,
    goals: &mut Vec<CoreGoal>,
    helpers: &mut Vec<CorePred>,
) -> Result<Term, AllocError>
    ensures { IfOk result (λ term. IsSpan exp.now →
        GivesAs in_range (site_of site.now) (exp_tree exp.now) term
        (so_far slots.old goals.old.items helpers.old.items) (so_far slots.new goals.new.items helpers.new.items)) }
{
    match exp {
        Exp::Range(first, step, last) => match step {
            Some(_) => kept_steps(alloc, site, exp, slots, goals, helpers),
            None => {
                let one = value(alloc, false, site, first, slots, goals, helpers)?;
                let behind = site.behind(alloc, first)?;
                let two = value(alloc, false, &behind, last, slots, goals, helpers)?;
                of_two(alloc, "..", one, two)
            }
        },
        _ => no_value(alloc, goals),
    }
}

/// A range with a step that stays as one.
#[cycle(lowering)]
fn kept_steps<'a>(
    alloc: Global,
    site: &Site<'a>,
    exp: &'a Exp,
    slots: &mut Slots<'a>,
    goals: &mut Vec<CoreGoal>,
    helpers: &mut Vec<CorePred>,
) -> Result<Term, AllocError>
    ensures { IfOk result (λ term. IsStepped exp.now →
        GivesAs in_range (site_of site.now) (exp_tree exp.now) term
        (so_far slots.old goals.old.items helpers.old.items) (so_far slots.new goals.new.items helpers.new.items)) }
{
    match exp {
        Exp::Range(first, step, last) => match step {
            Some(step) => {
                let one = value(alloc, false, site, first, slots, goals, helpers)?;
                let second = site.behind(alloc, first)?;
                let two = value(alloc, false, &second, step, slots, goals, helpers)?;
                let third = second.behind(alloc, step)?;
                let three = value(alloc, false, &third, last, slots, goals, helpers)?;
                of_three(alloc, "..", one, two, three)
            }
            None => no_value(alloc, goals),
        },
        _ => no_value(alloc, goals),
    }
}

/// A range that is built.
#[cycle(lowering)]
fn ranged<'a>(
    alloc: Global,
    site: &Site<'a>,
    exp: &'a Exp,
    slots: &mut Slots<'a>,
    goals: &mut Vec<CoreGoal>,
    helpers: &mut Vec<CorePred>,
) -> Result<Term, AllocError>
    ensures { IfOk result (λ term. IsSpan exp.now →
        Gives (site_of site.now) (exp_tree exp.now) term
        (so_far slots.old goals.old.items helpers.old.items) (so_far slots.new goals.new.items helpers.new.items)) }
{
    match exp {
        Exp::Range(first, step, last) => match step {
            Some(_) => stepped(alloc, site, exp, slots, goals, helpers),
            None => {
                let is_last = is_flat(Reading::Plain, last);
                let one = value(alloc, is_last, site, first, slots, goals, helpers)?;
                let behind = site.behind(alloc, first)?;
                let two = value(alloc, true, &behind, last, slots, goals, helpers)?;
                applied_to_two(alloc, "..", one, two, slots, goals)
            }
        },
        _ => no_value(alloc, goals),
    }
}

/// A range with a step.
#[cycle(lowering)]
fn stepped<'a>(
    alloc: Global,
    site: &Site<'a>,
    exp: &'a Exp,
    slots: &mut Slots<'a>,
    goals: &mut Vec<CoreGoal>,
    helpers: &mut Vec<CorePred>,
) -> Result<Term, AllocError>
    ensures { IfOk result (λ term. IsStepped exp.now →
        Gives (site_of site.now) (exp_tree exp.now) term
        (so_far slots.old goals.old.items helpers.old.items) (so_far slots.new goals.new.items helpers.new.items)) }
{
    match exp {
        Exp::Range(first, step, last) => match step {
            Some(step) => {
                let is_last = is_flat(Reading::Plain, last);
                let is_end = is_last & is_flat(Reading::Plain, step);
                let one = value(alloc, is_end, site, first, slots, goals, helpers)?;
                let second = site.behind(alloc, first)?;
                let two = value(alloc, is_last, &second, step, slots, goals, helpers)?;
                let third = second.behind(alloc, step)?;
                let three = value(alloc, true, &third, last, slots, goals, helpers)?;
                applied_to_three(alloc, "..", one, two, three, slots, goals)
            }
            None => no_value(alloc, goals),
        },
        _ => no_value(alloc, goals),
    }
}

/// A comprehension.
#[cycle(lowering)]
pub(crate) fn collected<'a>(
    alloc: Global,
    site: &Site<'a>,
    exp: &'a Exp,
    slots: &mut Slots<'a>,
    goals: &mut Vec<CoreGoal>,
    helpers: &mut Vec<CorePred>,
) -> Result<Term, AllocError>
    ensures { IfOk result (λ term. IsCollected exp.now →
        Gives (site_of site.now) (exp_tree exp.now) term
        (so_far slots.old goals.old.items helpers.old.items) (so_far slots.new goals.new.items helpers.new.items)) }
{
    match exp {
        Exp::Collect(is_array, item, units) => {
            let units = units.as_slice();
            let mut begun = begin_comprehension(alloc, *is_array, site, units, item, slots, goals)?;
            let list = gather(alloc, exp, &mut begun, slots, goals, helpers);
            drop(begun);
            list
        }
        _ => no_value(alloc, goals),
    }
}

/// The value of a comprehension that has begun.
#[cycle(lowering)]
fn gather<'a>(
    alloc: Global,
    exp: &'a Exp,
    begun: &mut Comprehension<'a>,
    slots: &mut Slots<'a>,
    goals: &mut Vec<CoreGoal>,
    helpers: &mut Vec<CorePred>,
) -> Result<Term, AllocError>
    ensures { IfOk result (λ term. IsCollected exp.now → (s : SiteOf) (ns : SlotNames) (before : List GoalTree) →
        IsGathering s (exp_tree exp.now) (lowered before ns) begun.old (lowered goals.old.items slots.old) →
        Gives s (exp_tree exp.now) term (so_far ns before helpers.old.items) (so_far slots.new goals.new.items helpers.new.items)) }
{
    match exp {
        Exp::Collect(_, item, units) => {
            let last = &mut begun.inside;
            let mut opened = open_units(
                alloc,
                begun.ending,
                &begun.inner,
                units.as_slice(),
                last,
                helpers,
            )?;
            let term = value(
                alloc,
                true,
                &last.site,
                item,
                &mut last.slots,
                &mut last.goals,
                helpers,
            )?;
            end_comprehension(
                alloc,
                term,
                &mut begun.around,
                &mut opened,
                last,
                slots,
                goals,
                helpers,
            )
        }
        _ => no_value(alloc, goals),
    }
}
