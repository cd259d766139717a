//! Loops over iterators and tests, where they begin and where they end: of `foreach` and of comprehensions.
ghost use Rattle.std.specs.Prelude.{◌≡◌, ◌∷◌, ◌++◌, [], map, IfOk};
ghost use Rattle.pi_core.specs.CoreTree.{pred_tree};
ghost use Rattle.pi_syntax.specs.ExpLists.{exps_of};
ghost use Rattle.pi_rewrite_spec.specs.Written.{gathered_at as gathered_by};
ghost use Rattle.pi_rewrite_slots.specs.Indexed.{names_in};
ghost use Rattle.pi_rewrite_sites.specs.SiteOf.{site_of};
ghost use Rattle.pi_rewrite_loops.specs.Helpers.{ending_of, lowered};
ghost use Rattle.pi_rewrite_goals.specs.Planned.{inner_in};
ghost use Rattle.pi_rewrite_goals.specs.Started.{IsStart, Ends, loop_text};
ghost use Rattle.pi_rewrite_goals.specs.Lowering.{so_far};

use crate::inner::{Inner, start_loop};
use crate::opened::Inside;
use crate::turn_sites::turns_of;
use pi_core::{CoreGoal, CorePred};
use pi_rewrite_loops::{Ending, Loop, loop_slots, only_turn_helper, push_loop};
use pi_rewrite_sites::{Site, begins_with_iterator};
use pi_rewrite_slots::Slots;
use pi_syntax::Exp;
use std::alloc::{AllocError, Global};
use std::mem;

/// A loop that has begun: where its first iterator or test is lowered, and how the first iterator's loop ends. One that
/// begins with a test is a loop of its own, with one turn.
#[derive(Drop)]
pub struct Start<'a> {
    pub whole: Option<Loop<'a>>,
    pub ending: Ending,
    pub inside: Inside<'a>,
}

/// Begins a loop. One that begins with an iterator takes the slots that there are.
pub fn begin<'a>(
    alloc: Global,
    site: &Site<'a>,
    ending: Ending,
    kept: &[&'a str],
    inner: &Inner<'a>,
    units: &'a [Exp],
    slots: &mut Slots<'a>,
) -> Result<Start<'a>, AllocError>
    ensures { IfOk result (λ made. IsStart (loop_text (site_of site.now) (ending_of ending) (names_in kept.now) (inner_in inner.now)
        (exps_of units.now)) slots.old made slots.new) }
{
    if begins_with_iterator(units) {
        let here = site.copy(alloc)?;
        let outer = mem::replace(slots, Slots::new(alloc));
        let inside = at(alloc, here, outer);
        return Ok(Start {
            whole: None,
            ending,
            inside,
        });
    }
    let whole = start_loop(alloc, site, ending, kept, inner, units)?;
    let head = loop_slots(alloc, &whole)?;
    let turns = turns_of(alloc, site, &whole, &head)?;
    let inside = at(alloc, turns, head);
    Ok(Start {
        whole: Some(whole),
        ending: Ending::AsItIs,
        inside,
    })
}

/// A clause without goals so far.
fn at<'a>(alloc: Global, site: Site<'a>, slots: Slots<'a>) -> Inside<'a>
    ensures site { site_of result.site ≡ site_of site.entry }
    ensures slots { result.slots ≡ slots.entry }
    ensures goals { result.goals.items ≡ [] }
{
    Inside {
        site,
        goals: Vec::new(alloc),
        slots,
    }
}

/// Ends a loop, with what all its iterators and tests were closed to: puts that behind the goals, or into the one turn of a
/// loop of its own, which it puts there.
pub fn finish<'a>(
    alloc: Global,
    site: &Site<'a>,
    whole: &Option<Loop<'a>>,
    turn: &mut Inside<'a>,
    slots: &mut Slots<'a>,
    goals: &mut Vec<CoreGoal>,
    helpers: &mut Vec<CorePred>,
) -> Result<(), AllocError>
    ensures { IfOk result (λ _. Ends whole.now (site_of site.now)
        (lowered turn.old.goals.items turn.old.slots) (so_far slots.old goals.old.items (map pred_tree helpers.old.items))
        (so_far slots.new goals.new.items (map pred_tree helpers.new.items))) }
{
    let mut more = mem::replace(&mut turn.goals, Vec::new(alloc));
    match whole {
        None => {
            goals.append(&mut more)?;
            mem::swap(slots, &mut turn.slots);
            Ok(())
        }
        Some(whole) => {
            let helper = only_turn_helper(alloc, whole, more, &turn.slots)?;
            helpers.push(helper)?;
            push_loop(
                alloc,
                site.filled,
                site.before.as_slice(),
                whole,
                slots,
                goals,
            )?;
            Ok(())
        }
    }
}

/// Where the items of a comprehension stand: what is gathered has a name before them.
pub fn gathered_at<'a>(alloc: Global, site: &Site<'a>) -> Result<Site<'a>, AllocError>
    ensures { IfOk result (λ made. site_of made ≡ gathered_by (site_of site.now)) }
{
    let mut made = site.copy(alloc)?;
    made.before.push("")?;
    Ok(made)
}
