//! Loops of a text: which names they hand on and keep, and what their helpers are called.
ghost use Rattle.std.specs.Prelude.{◌≡◌, ◌+◌, ◌++◌, map, IfOk};
ghost use Rattle.pi_core.specs.CoreTree.{pred_tree};
ghost use Rattle.pi_syntax.specs.ExpTree.{exp_tree, no_exps};
ghost use Rattle.pi_meaning.specs.OverNames.Texts.{occurring, assigned as assigned_of, shared_names, kept_names as kept_names_of};
ghost use Rattle.pi_rewrite_spec.specs.Loops.{as_it_is, while_turn, do_turn};
ghost use Rattle.pi_rewrite_spec.specs.Sites.{helpers_in as helpers_of};
ghost use Rattle.pi_rewrite_spec.specs.Written.{loop_at, while_loop as while_loop_of, do_loop as do_loop_of};
ghost use Rattle.pi_rewrite_sites.specs.SiteOf.{site_of};
ghost use Rattle.pi_rewrite_loops.specs.Helpers.{loop_of, lowered};
ghost use Rattle.pi_rewrite_goals.specs.Turning.{HasTurns, EndsTurns};

use crate::turn_sites::turns_of;
use pi_core::{CoreGoal, CorePred};
use pi_rewrite_loops::{Ending, Loop, do_helper, loop_slots, push_loop, while_helper};
use pi_rewrite_sites::{Site, helpers_in, kept_names, push_assigned, push_names, those, together};
use pi_rewrite_slots::Slots;
use pi_syntax::Exp;
use std::alloc::{AllocError, Global};
use std::mem;

/// A loop of two goals whose turns have begun: the loop, where its first goal stands and where its second does, and the
/// slots and the goals there.
#[derive(Drop)]
pub(crate) struct Turns<'a> {
    pub(crate) whole: Loop<'a>,
    pub(crate) first: Site<'a>,
    pub(crate) second: Site<'a>,
    pub(crate) slots: Slots<'a>,
    pub(crate) one: Vec<CoreGoal>,
    pub(crate) other: Vec<CoreGoal>,
}

/// Begins the turns of a `while`, whose first goal is its test.
pub(crate) fn begin_while<'a>(
    alloc: Global,
    site: &Site<'a>,
    test: &'a Exp,
    body: &'a Exp,
) -> Result<Turns<'a>, AllocError>
    ensures { IfOk result (λ made. HasTurns (site_of site.now)
        (while_loop_of (site_of site.now) (exp_tree test.now) (exp_tree body.now)) (exp_tree test.now) made) }
{
    let whole = while_loop(alloc, site, test, body)?;
    begin_turns(alloc, site, whole, test)
}

/// Begins the turns of a `do`, whose first goal is its body.
pub(crate) fn begin_do<'a>(
    alloc: Global,
    site: &Site<'a>,
    body: &'a Exp,
    test: &'a Exp,
) -> Result<Turns<'a>, AllocError>
    ensures { IfOk result (λ made. HasTurns (site_of site.now)
        (do_loop_of (site_of site.now) (exp_tree body.now) (exp_tree test.now)) (exp_tree body.now) made) }
{
    let whole = do_loop(alloc, site, body, test)?;
    begin_turns(alloc, site, whole, body)
}

/// Begins the turns of a loop, whose first goal is this.
fn begin_turns<'a>(
    alloc: Global,
    site: &Site<'a>,
    whole: Loop<'a>,
    goal: &'a Exp,
) -> Result<Turns<'a>, AllocError>
    ensures { IfOk result (λ made. HasTurns (site_of site.now) (loop_of whole.entry) (exp_tree goal.now) made) }
{
    let slots = loop_slots(alloc, &whole)?;
    let first = turns_of(alloc, site, &whole, &slots)?;
    let second = first.behind(alloc, goal)?;
    Ok(Turns {
        whole,
        first,
        second,
        slots,
        one: Vec::new(alloc),
        other: Vec::new(alloc),
    })
}

/// Ends a `while`: puts it behind the goals, and its helper behind those before.
pub(crate) fn end_while<'a>(
    alloc: Global,
    site: &Site<'a>,
    turns: &mut Turns<'a>,
    slots: &mut Slots<'a>,
    goals: &mut Vec<CoreGoal>,
    helpers: &mut Vec<CorePred>,
) -> Result<(), AllocError>
    ensures { IfOk result (λ _. EndsTurns (site_of site.now) (loop_of turns.old.whole)
        (while_turn (loop_of turns.old.whole) (lowered turns.old.one.items turns.old.slots)
        (λ _. lowered turns.old.other.items turns.old.slots)) slots.old goals.old.items goals.new.items slots.new
        (map pred_tree helpers.old.items) (map pred_tree helpers.new.items)) }
{
    let tests = mem::replace(&mut turns.one, Vec::new(alloc));
    let turn = mem::replace(&mut turns.other, Vec::new(alloc));
    let helper = while_helper(alloc, &turns.whole, tests, turn, &turns.slots)?;
    helpers.push(helper)?;
    push_loop(
        alloc,
        site.filled,
        site.before.as_slice(),
        &turns.whole,
        slots,
        goals,
    )
}

/// Ends a `do`: puts it behind the goals, and its helper behind those before.
pub(crate) fn end_do<'a>(
    alloc: Global,
    site: &Site<'a>,
    turns: &mut Turns<'a>,
    slots: &mut Slots<'a>,
    goals: &mut Vec<CoreGoal>,
    helpers: &mut Vec<CorePred>,
) -> Result<(), AllocError>
    ensures { IfOk result (λ _. EndsTurns (site_of site.now) (loop_of turns.old.whole)
        (do_turn (loop_of turns.old.whole) (lowered turns.old.one.items turns.old.slots)
        (λ _. lowered turns.old.other.items turns.old.slots)) slots.old goals.old.items goals.new.items slots.new
        (map pred_tree helpers.old.items) (map pred_tree helpers.new.items)) }
{
    let turn = mem::replace(&mut turns.one, Vec::new(alloc));
    let tests = mem::replace(&mut turns.other, Vec::new(alloc));
    let helper = do_helper(alloc, &turns.whole, turn, tests, &turns.slots)?;
    helpers.push(helper)?;
    push_loop(
        alloc,
        site.filled,
        site.before.as_slice(),
        &turns.whole,
        slots,
        goals,
    )
}

/// A `while`, by its test and its body.
fn while_loop<'a>(
    alloc: Global,
    site: &Site<'a>,
    test: &'a Exp,
    body: &'a Exp,
) -> Result<Loop<'a>, AllocError>
    ensures { IfOk result (λ made. loop_of made ≡ while_loop_of (site_of site.now) (exp_tree test.now) (exp_tree body.now)) }
{
    loop_of_two(alloc, site, test, body, body)
}

/// A `do`, by its body and its test.
fn do_loop<'a>(
    alloc: Global,
    site: &Site<'a>,
    body: &'a Exp,
    test: &'a Exp,
) -> Result<Loop<'a>, AllocError>
    ensures { IfOk result (λ made. loop_of made ≡ do_loop_of (site_of site.now) (exp_tree body.now) (exp_tree test.now)) }
{
    loop_of_two(alloc, site, body, test, body)
}

/// A loop in whose turns two goals stand, one of which can assign names.
fn loop_of_two<'a>(
    alloc: Global,
    site: &Site<'a>,
    first: &'a Exp,
    second: &'a Exp,
    body: &'a Exp,
) -> Result<Loop<'a>, AllocError>
    ensures { IfOk result (λ made. loop_of made ≡
        loop_at (site_of site.now) (helpers_of (exp_tree first.now) + helpers_of (exp_tree second.now))
        (shared_names (site_of site.now).before (occurring (exp_tree first.now) ++ occurring (exp_tree second.now)))
        (kept_names_of (site_of site.now).before no_exps (assigned_of (exp_tree body.now))) as_it_is) }
{
    let one = helpers_in(first)?;
    let other = helpers_in(second)?;
    let count = together(one, other)?;
    let name = site.name_of(alloc, count)?;
    let mut used = Vec::new(alloc);
    push_names(true, first, &mut used)?;
    push_names(true, second, &mut used)?;
    let shared = those(alloc, site.before.as_slice(), used.as_slice(), true)?;
    let mut assigned = Vec::new(alloc);
    push_assigned(alloc, body, &mut assigned)?;
    let none = Vec::new(alloc);
    let kept = kept_names(
        alloc,
        site.before.as_slice(),
        none.as_slice(),
        assigned.as_slice(),
    )?;
    Ok(Loop {
        name,
        shared,
        kept,
        ending: Ending::AsItIs,
    })
}
