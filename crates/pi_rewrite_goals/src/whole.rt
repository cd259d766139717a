//! Loops over iterators and tests, where they begin and where they end: what of `foreach` and of comprehensions goes into no
//! expression.
ghost use Rattle.std.specs.Prelude.{◌≡◌, map, IfOk};
ghost use Rattle.pi_core.specs.CoreTree.{pred_tree};
ghost use Rattle.pi_syntax.specs.ExpTree.{exp_tree};
ghost use Rattle.pi_syntax.specs.ExpLists.{exps_of};
ghost use Rattle.pi_meaning.specs.OverNames.Texts.{assigned, kept_names};
ghost use Rattle.pi_rewrite_spec.specs.Loops.{as_it_is};
ghost use Rattle.pi_rewrite_spec.specs.Written.{inner_of as inner_by};
ghost use Rattle.pi_rewrite_sites.specs.SiteOf.{site_of};
ghost use Rattle.pi_rewrite_loops.specs.Helpers.{lowered};
ghost use Rattle.pi_rewrite_goals.specs.Opening.{Iterates, EndsLoop, Gathers, EndsGathering};

use crate::inner::{Inner, gathering, inner_of, kept_by};
use crate::iterated::{Start, begin, finish, gathered_at};
use crate::opened::{Inside, Open, close};
use pi_core::{CoreGoal, CorePred};
use pi_rewrite_loops::{Ending, Loop, begun, gathered, push_adding, push_started};
use pi_rewrite_sites::Site;
use pi_rewrite_slots::Slots;
use pi_syntax::Exp;
use pi_terms::Term;
use std::alloc::{AllocError, Global};

/// A loop over iterators and tests that has begun: what stands in it, the loop that it is itself where it begins with a test,
/// how its first iterator ends, and the clause in which that is lowered.
#[derive(Drop)]
pub(crate) struct Iterating<'a> {
    pub(crate) inner: Inner<'a>,
    pub(crate) whole: Option<Loop<'a>>,
    pub(crate) ending: Ending,
    pub(crate) inside: Inside<'a>,
}

/// A comprehension whose loop has begun.
#[derive(Drop)]
pub(crate) struct Comprehension<'a> {
    pub(crate) inner: Inner<'a>,
    pub(crate) around: Around<'a>,
    pub(crate) ending: Ending,
    pub(crate) inside: Inside<'a>,
}

/// Where the loop of a comprehension stands: its site, its slots, and the loop that it is itself where it begins with a test.
#[derive(Drop)]
pub(crate) struct Around<'a> {
    pub(crate) site: Site<'a>,
    pub(crate) slots: Slots<'a>,
    pub(crate) whole: Option<Loop<'a>>,
}

/// Begins a `foreach`.
pub(crate) fn begin_foreach<'a>(
    alloc: Global,
    site: &Site<'a>,
    units: &'a [Exp],
    body: &'a Exp,
    slots: &mut Slots<'a>,
) -> Result<Iterating<'a>, AllocError>
    ensures { IfOk result (λ made. Iterates (site_of site.now) as_it_is
        (kept_names (site_of site.now).before (exps_of units.now) (assigned (exp_tree body.now))) (inner_by (exp_tree body.now))
        (exps_of units.now) slots.old made slots.new) }
{
    let inner = inner_of(alloc, body)?;
    let kept = kept_by(alloc, site, &[], units, &inner)?;
    let ending = Ending::AsItIs;
    let start = begin(alloc, site, ending, kept.as_slice(), &inner, units, slots)?;
    let Start {
        whole,
        ending,
        inside,
    } = start;
    Ok(Iterating {
        inner,
        whole,
        ending,
        inside,
    })
}

/// Ends a loop: closes what is open around what stands inside, and puts the loop behind the goals.
pub(crate) fn end_foreach<'a>(
    alloc: Global,
    site: &Site<'a>,
    whole: &Option<Loop<'a>>,
    opened: &mut Vec<Open<'a>>,
    inside: &mut Inside<'a>,
    slots: &mut Slots<'a>,
    goals: &mut Vec<CoreGoal>,
    helpers: &mut Vec<CorePred>,
) -> Result<(), AllocError>
    ensures { IfOk result (λ _. EndsLoop whole.now (site_of site.now) opened.old.items
        (lowered inside.old.goals.items inside.old.slots) slots.old goals.old.items goals.new.items slots.new
        (map pred_tree helpers.old.items) (map pred_tree helpers.new.items)) }
{
    close(alloc, opened, &mut inside.slots, &mut inside.goals, helpers)?;
    finish(alloc, site, whole, inside, slots, goals, helpers)
}

/// Begins a comprehension.
pub(crate) fn begin_comprehension<'a>(
    alloc: Global,
    is_array: bool,
    site: &Site<'a>,
    units: &'a [Exp],
    item: &'a Exp,
    slots: &mut Slots<'a>,
    goals: &mut Vec<CoreGoal>,
) -> Result<Comprehension<'a>, AllocError>
    ensures { IfOk result (λ made. Gathers (site_of site.now) (exp_tree item.now)
        (exps_of units.now) is_array slots.old goals.old.items made slots.new goals.new.items) }
{
    let inner = gathering(alloc, item)?;
    push_started(alloc, site.filled, site.before.as_slice(), slots, goals)?;
    let mut within = begun(alloc, slots, goals)?;
    let there = gathered_at(alloc, site)?;
    let ending = Ending::InOrder(is_array);
    let start = begin(alloc, &there, ending, &[""], &inner, units, &mut within)?;
    let Start {
        whole,
        ending,
        inside,
    } = start;
    let around = Around {
        site: there,
        slots: within,
        whole,
    };
    Ok(Comprehension {
        inner,
        around,
        ending,
        inside,
    })
}

/// Ends a comprehension, whose item stands behind the goals inside: gathers that, and ends the loop. Its value.
pub(crate) fn end_comprehension<'a>(
    alloc: Global,
    item: Term,
    around: &mut Around<'a>,
    opened: &mut Vec<Open<'a>>,
    inside: &mut Inside<'a>,
    slots: &mut Slots<'a>,
    goals: &mut Vec<CoreGoal>,
    helpers: &mut Vec<CorePred>,
) -> Result<Term, AllocError>
    ensures { IfOk result (λ list. EndsGathering around.old opened.old.items item inside.old.goals.items inside.old.slots slots.old
        goals.old.items list goals.new.items slots.new (map pred_tree helpers.old.items) (map pred_tree helpers.new.items)) }
{
    push_adding(alloc, item, &mut inside.slots, &mut inside.goals)?;
    end_foreach(
        alloc,
        &around.site,
        &around.whole,
        opened,
        inside,
        &mut around.slots,
        goals,
        helpers,
    )?;
    let list = gathered(alloc, &around.slots, slots)?;
    Ok(list)
}
