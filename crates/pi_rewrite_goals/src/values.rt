//! Values: terms whose goals stand before their use.
ghost use Rattle.std.specs.Prelude.{◌≡◌, ◌+◌, List, cond, false, drop, map, ◌++◌, ◌∷◌, [], IfOk};
ghost use Rattle.pi_terms.specs.Tree.{Tree};
ghost use Rattle.pi_core.specs.GoalTree.{GoalTree};
ghost use Rattle.pi_syntax.specs.ExpTree.{exp_tree};
ghost use Rattle.pi_syntax.specs.ExpLists.{exps_of};
ghost use Rattle.pi_syntax.specs.declared.exp.Exp.{Exp};
ghost use Rattle.pi_rewrite_spec.specs.Values.{are_flat_as};
ghost use Rattle.pi_meaning.specs.OverNames.Forms.{Reading as ReadAs};
ghost use Rattle.pi_rewrite_slots.specs.ReadAs.{reading_of, readings_of};
ghost use Rattle.pi_core.specs.CoreTree.{pred_tree};
ghost use Rattle.pi_rewrite_spec.specs.Helpers.{value_helpers, all_helpers};
ghost use Rattle.pi_rewrite_sites.specs.SiteOf.{site_of};
ghost use Rattle.pi_rewrite_loops.specs.Parts.{IsValue, AreValues};
ghost use Rattle.pi_rewrite_goals.specs.Lowering.{With, GivesAs, so_far, EndsCalls, value_of, by_place_as, by_place, flat_by, values_as as values_read, values_of};

use crate::calls::read_call;
use crate::structures::{array_of, collected, indexed, listed, read_range};
use pi_core::{CoreGoal, CorePred};
use pi_rewrite_loops::{push_fail, push_filling};
use pi_rewrite_sites::Site;
use pi_rewrite_slots::{Reading, Readings, Slots, is_flat, slot_term};
use pi_syntax::Exp;
use pi_terms::Term;
use std::alloc::{AllocError, Global};

/// The term that an expression comes to as the last one that is evaluated. The goals that make its calls' values are put
/// behind the others, and the helpers of its loops behind those before. Errors: no memory.
#[tactic(auto, unfolding(crate::specs::Lowering::by_place_as))]
pub fn lower_value<'a>(
    alloc: Global,
    site: &Site<'a>,
    exp: &'a Exp,
    slots: &mut Slots<'a>,
    goals: &mut Vec<CoreGoal>,
    helpers: &mut Vec<CorePred>,
) -> Result<Term, AllocError>
    ensures goals { IfOk result (λ _. goals.new.items ≡
        goals.old.items ++ (value_of (site_of site.now) (exp_tree exp.now) slots.old).goals) }
    ensures is { IfOk result (λ term. term ≡ (value_of (site_of site.now) (exp_tree exp.now) slots.old).tree) }
    ensures slots { IfOk result (λ _. slots.new ≡ (value_of (site_of site.now) (exp_tree exp.now) slots.old).names) }
    ensures helpers { IfOk result (λ _. map pred_tree helpers.new.items ≡
        map pred_tree helpers.old.items ++ value_helpers (site_of site.now) (exp_tree exp.now)) }
{
    let term = value(alloc, true, site, exp, slots, goals, helpers)?;
    Ok(term)
}

/// An expression, by whether it is the last one that is evaluated.
#[cycle(lowering)]
pub(crate) fn value<'a>(
    alloc: Global,
    is_last: bool,
    site: &Site<'a>,
    exp: &'a Exp,
    slots: &mut Slots<'a>,
    goals: &mut Vec<CoreGoal>,
    helpers: &mut Vec<CorePred>,
) -> Result<Term, AllocError>
    ensures { IfOk result (λ term. With (IsValue (by_place is_last (site_of site.now) (exp_tree exp.now) slots.old) goals.old.items
        goals.new.items term slots.new) helpers.old.items helpers.new.items (value_helpers (site_of site.now) (exp_tree exp.now))) }
{
    value_as(
        alloc,
        Reading::Plain,
        is_last,
        site,
        exp,
        slots,
        goals,
        helpers,
    )
}

/// The same of an expression that is read so.
#[cycle(lowering)]
fn value_as<'a>(
    alloc: Global,
    reading: Reading,
    is_last: bool,
    site: &Site<'a>,
    exp: &'a Exp,
    slots: &mut Slots<'a>,
    goals: &mut Vec<CoreGoal>,
    helpers: &mut Vec<CorePred>,
) -> Result<Term, AllocError>
    ensures { IfOk result (λ term. With (IsValue
        (by_place_as (reading_of reading) is_last (site_of site.now) (exp_tree exp.now) slots.old) goals.old.items
        goals.new.items term slots.new) helpers.old.items helpers.new.items (value_helpers (site_of site.now) (exp_tree exp.now))) }
{
    if is_flat(reading, exp) {
        return flat_value(alloc, is_last, site.filled, exp, slots, goals);
    }
    made(alloc, reading, site, exp, slots, goals, helpers)
}

/// An expression without a call.
fn flat_value<'a>(
    alloc: Global,
    is_last: bool,
    head: u32,
    exp: &'a Exp,
    slots: &mut Slots<'a>,
    goals: &mut Vec<CoreGoal>,
) -> Result<Term, AllocError>
    ensures { IfOk result (λ term. IsValue (flat_by is_last head (exp_tree exp.now) slots.old) goals.old.items goals.new.items term
        slots.new) }
{
    if is_last {
        let term = slot_term(alloc, exp, slots)?;
        return Ok(term);
    }
    let count = slots.count()?;
    let term = slot_term(alloc, exp, slots)?;
    push_filling(alloc, head, count, &term, goals)?;
    Ok(term)
}

/// An expression with a call in it, which is read so.
#[cycle(lowering)]
fn made<'a>(
    alloc: Global,
    reading: Reading,
    site: &Site<'a>,
    exp: &'a Exp,
    slots: &mut Slots<'a>,
    goals: &mut Vec<CoreGoal>,
    helpers: &mut Vec<CorePred>,
) -> Result<Term, AllocError>
    ensures { IfOk result (λ term. GivesAs (reading_of reading) (site_of site.now) (exp_tree exp.now) term
        (so_far slots.old goals.old.items helpers.old.items) (so_far slots.new goals.new.items helpers.new.items)) }
{
    match exp {
        Exp::List(_, _) => listed(alloc, site, exp, slots, goals, helpers),
        Exp::Array(items) => array_of(alloc, site, items.as_slice(), slots, goals, helpers),
        Exp::Call(name, args) => read_call(
            alloc,
            reading,
            site,
            name.as_str(),
            args.as_slice(),
            slots,
            goals,
            helpers,
        ),
        Exp::Index(_, _) => indexed(alloc, site, exp, slots, goals, helpers),
        Exp::Range(_, _, _) => read_range(alloc, reading, site, exp, slots, goals, helpers),
        Exp::Var(_) => no_value(alloc, goals),
        Exp::Int(_) => no_value(alloc, goals),
        Exp::Atom(_) => no_value(alloc, goals),
        Exp::Str(_) => no_value(alloc, goals),
        Exp::Quote(_) => no_value(alloc, goals),
        Exp::At(_, _) => no_value(alloc, goals),
        Exp::Collect(_, _, _) => collected(alloc, site, exp, slots, goals, helpers),
        Exp::And(_) => no_value(alloc, goals),
        Exp::Or(_) => no_value(alloc, goals),
        Exp::Arrow(_, _) => no_value(alloc, goals),
        Exp::If(_, _) => no_value(alloc, goals),
        Exp::Foreach(_, _) => no_value(alloc, goals),
        Exp::While(_, _) => no_value(alloc, goals),
        Exp::DoWhile(_, _) => no_value(alloc, goals),
    }
}

/// What stands for what has no value here.
pub(crate) fn no_value(alloc: Global, goals: &mut Vec<CoreGoal>) -> Result<Term, AllocError>
    ensures goals { IfOk result (λ _. goals.new.items ≡ goals.old.items ++ GoalTree.fail ∷ []) }
    ensures is { IfOk result (λ term. term ≡ Tree.atom []) }
{
    push_fail(alloc, goals)?;
    let term = Term::atom(alloc, "")?;
    Ok(term)
}

/// Parts of a term, each evaluated before the term is used; or a call's arguments, of which those behind the last one with
/// a call in it are evaluated by the call that uses them.
#[cycle(lowering)]
pub(crate) fn values<'a>(
    alloc: Global,
    are_parts: bool,
    site: &Site<'a>,
    exps: &'a [Exp],
    slots: &mut Slots<'a>,
    goals: &mut Vec<CoreGoal>,
    helpers: &mut Vec<CorePred>,
) -> Result<Vec<Term>, AllocError>
    ensures { IfOk result (λ terms. With (AreValues
        (values_of are_parts (site_of site.now) (exps_of exps.now) slots.old) goals.old.items goals.new.items terms.items
        slots.new) helpers.old.items helpers.new.items (all_helpers (site_of site.now) (exps_of exps.now))) }
{
    let plain = Readings::Plain;
    values_as(alloc, are_parts, plain, site, exps, slots, goals, helpers)
}

/// The same of expressions that are read so.
#[cycle(lowering)]
pub(crate) fn values_as<'a>(
    alloc: Global,
    are_parts: bool,
    readings: Readings,
    site: &Site<'a>,
    exps: &'a [Exp],
    slots: &mut Slots<'a>,
    goals: &mut Vec<CoreGoal>,
    helpers: &mut Vec<CorePred>,
) -> Result<Vec<Term>, AllocError>
    ensures { IfOk result (λ terms. With (AreValues
        (values_read are_parts (site_of site.now) (readings_of readings) (exps_of exps.now) slots.old) goals.old.items goals.new.items terms.items
        slots.new) helpers.old.items helpers.new.items (all_helpers (site_of site.now) (exps_of exps.now))) }
{
    let end = calls_end(readings, exps);
    let mut here = site.copy(alloc)?;
    let mut terms = Vec::new(alloc);
    for (i, exp) in exps.iter().enumerate() {
        let is_last = is_behind(are_parts, end, i);
        let reading = readings.at(i);
        let term = value_as(alloc, reading, is_last, &here, exp, slots, goals, helpers)?;
        terms.push(term)?;
        here.pass(alloc, exp)?;
    }
    Ok(terms)
}

/// Whether no call stands behind an argument. `end` is the place behind the last one with a call in it.
fn is_behind(are_parts: bool, end: usize, i: usize) -> bool
    ensures { (rs : List ReadAs) (es : List Exp) → EndsCalls rs es end →
        result ≡ cond are_parts false (are_flat_as (drop (i + 1) rs) (exps_of (drop (i + 1) es))) }
{
    if are_parts {
        return false;
    }
    end.saturating_sub(1) <= i
}

/// The place behind the last expression with a call in it.
fn calls_end(readings: Readings, exps: &[Exp]) -> usize
    ensures { EndsCalls (readings_of readings) exps.now result }
{
    let mut end = exps.len();
    while end > 0 {
        if !is_flat(readings.at(end - 1), &exps[end - 1]) {
            return end;
        }
        end -= 1;
    }
    end
}
