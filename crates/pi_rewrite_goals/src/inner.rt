//! What stands in a loop behind its iterators and tests, and the loops that hold it.
ghost use Rattle.std.specs.Prelude.{◌≡◌, ◌+◌, ◌++◌, length, IfOk};
ghost use Rattle.pi_syntax.specs.ExpTree.{exp_tree};
ghost use Rattle.pi_syntax.specs.ExpLists.{exps_of};
ghost use Rattle.pi_meaning.specs.OverNames.Texts.{occurring_all, patterns_of};
ghost use Rattle.pi_rewrite_spec.specs.Sites.{helpers_in as helpers_of, helpers_in_units as helpers_of_units, behind_site, inside};
ghost use Rattle.pi_rewrite_spec.specs.Written.{inner_of as inner_by, gathering as gathering_by, start_loop as start_loop_of};
ghost use Rattle.pi_rewrite_slots.specs.Indexed.{names_in};
ghost use Rattle.pi_rewrite_sites.specs.SiteOf.{site_of};
ghost use Rattle.pi_rewrite_sites.specs.TextNames.{kept_of};
ghost use Rattle.pi_rewrite_loops.specs.Helpers.{loop_of, ending_of};
ghost use Rattle.pi_rewrite_goals.specs.Planned.{inner_in, loop_over, IsPlan, IsPlanned};

use pi_rewrite_loops::{Element, Ending, Loop, matching};
use pi_rewrite_sites::{
    Site, helpers_in, helpers_in_units, iterated, kept_names, push_assigned, push_names,
    push_names_of_all, push_patterns, those, together,
};
use pi_rewrite_slots::Slots;
use pi_syntax::Exp;
use pi_terms::Text;
use std::alloc::{AllocError, Global};

/// What stands in a loop behind its iterators and tests: the names that it assigns, those that occur in it, and how many
/// helpers it has.
pub struct Inner<'a> {
    pub assigned: Vec<&'a str>,
    pub used: Vec<&'a str>,
    pub count: u64,
}

// By hand, so that letting one go is a call and not its parts at each way out.
impl<'a> Drop for Inner<'a> {
    fn drop(self) {
        let Inner {
            assigned: _,
            used: _,
            count: _,
        } = self;
    }
}

/// An iterator before it is put: its loop, what its second helper is called, the pattern of its elements, and where its
/// turns stand, with their slots.
#[derive(Drop)]
pub struct Planned<'a> {
    pub whole: Loop<'a>,
    pub turn: Text,
    pub element: Element,
    pub site: Site<'a>,
    pub slots: Slots<'a>,
}

/// What stands in a `foreach`.
#[tactic(auto, unfolding(pi_rewrite_sites::specs::TextNames::names_of, pi_rewrite_sites::specs::TextNames::names_of_all))]
pub fn inner_of<'a>(alloc: Global, body: &'a Exp) -> Result<Inner<'a>, AllocError>
    ensures { IfOk result (λ made. inner_in made ≡ inner_by (exp_tree body.now)) }
{
    let mut assigned = Vec::new(alloc);
    push_assigned(alloc, body, &mut assigned)?;
    let mut used = Vec::new(alloc);
    push_names(true, body, &mut used)?;
    let count = helpers_in(body)?;
    Ok(Inner {
        assigned,
        used,
        count,
    })
}

/// What stands in a comprehension, with the name of what is gathered.
#[tactic(auto, unfolding(pi_rewrite_sites::specs::TextNames::names_of, pi_rewrite_sites::specs::TextNames::names_of_all))]
pub fn gathering<'a>(alloc: Global, item: &'a Exp) -> Result<Inner<'a>, AllocError>
    ensures { IfOk result (λ made. inner_in made ≡ gathering_by (exp_tree item.now)) }
{
    let mut assigned = Vec::new(alloc);
    assigned.push("")?;
    let mut used = Vec::new(alloc);
    used.push("")?;
    push_names(true, item, &mut used)?;
    let count = helpers_in(item)?;
    Ok(Inner {
        assigned,
        used,
        count,
    })
}

/// The names that occur in units and in what stands behind them.
#[tactic(auto, unfolding(pi_rewrite_sites::specs::TextNames::names_of, pi_rewrite_sites::specs::TextNames::names_of_all))]
fn used_in<'a>(
    alloc: Global,
    units: &'a [Exp],
    inner: &Inner<'a>,
) -> Result<Vec<&'a str>, AllocError>
    ensures { IfOk result (λ made. names_in made.items ≡ occurring_all (exps_of units.now) ++ names_in inner.now.used.items) }
{
    let mut used = Vec::new(alloc);
    push_names_of_all(true, units, &mut used)?;
    used.extend_from_slice(inner.used.as_slice())?;
    Ok(used)
}

/// The names that a loop keeps, by those of the pattern of its first iterator and by the units behind it.
pub fn kept_by<'a>(
    alloc: Global,
    site: &Site<'a>,
    own: &[&'a str],
    units: &'a [Exp],
    inner: &Inner<'a>,
) -> Result<Vec<&'a str>, AllocError>
    ensures { IfOk result (λ made. names_in made.items ≡
        kept_of (names_in site.now.before.items) (names_in own.now ++ patterns_of (exps_of units.now))
        (names_in inner.now.assigned.items)) }
{
    let mut patterns = Vec::new(alloc);
    patterns.extend_from_slice(own)?;
    push_patterns(units, &mut patterns)?;
    let kept = kept_names(
        alloc,
        site.before.as_slice(),
        patterns.as_slice(),
        inner.assigned.as_slice(),
    )?;
    Ok(kept)
}

/// A loop that begins with no iterator.
pub fn start_loop<'a>(
    alloc: Global,
    site: &Site<'a>,
    ending: Ending,
    kept: &[&'a str],
    inner: &Inner<'a>,
    units: &'a [Exp],
) -> Result<Loop<'a>, AllocError>
    ensures { IfOk result (λ made. loop_of made ≡
        start_loop_of (site_of site.now) (ending_of ending) (names_in kept.now) (inner_in inner.now) (exps_of units.now)) }
{
    let before = helpers_in_units(units)?;
    let count = together(before, inner.count)?;
    let name = site.name_of(alloc, count)?;
    let used = used_in(alloc, units, inner)?;
    let shared = those(alloc, site.before.as_slice(), used.as_slice(), true)?;
    let mut names = Vec::new(alloc);
    names.extend_from_slice(kept)?;
    Ok(Loop {
        name,
        shared,
        kept: names,
        ending,
    })
}

/// How many helpers there are before an iterator's own.
fn own_number<'a>(unit: &'a Exp, rest: &'a [Exp], inner: &Inner<'a>) -> Result<u64, AllocError>
    ensures { IfOk result (λ count. count ≡ helpers_of (exp_tree unit.now) + (helpers_of_units (exps_of rest.now) + inner.now.count)) }
{
    let one = helpers_in(unit)?;
    let more = helpers_in_units(rest)?;
    let behind = together(more, inner.count)?;
    let count = together(one, behind)?;
    Ok(count)
}

/// The loop of an iterator, by how many helpers there are before its own, and by the names of its pattern.
fn iterator_loop<'a>(
    alloc: Global,
    site: &Site<'a>,
    ending: Ending,
    inner: &Inner<'a>,
    number: u64,
    own: &[&'a str],
    rest: &'a [Exp],
) -> Result<Loop<'a>, AllocError>
    ensures { IfOk result (λ made. loop_of made ≡
        loop_over (site_of site.now) (ending_of ending) (inner_in inner.now) number (names_in own.now) (exps_of rest.now)) }
{
    let name = site.name_of(alloc, number)?;
    let used = used_in(alloc, rest, inner)?;
    let known = those(alloc, site.before.as_slice(), used.as_slice(), true)?;
    let shared = those(alloc, known.as_slice(), own, false)?;
    let kept = kept_by(alloc, site, own, rest, inner)?;
    Ok(Loop {
        name,
        shared,
        kept,
        ending,
    })
}

/// Where the turns of an iterator stand, whose second helper's head has these slots.
fn elements_of<'a>(
    alloc: Global,
    site: &Site<'a>,
    whole: &Loop<'a>,
    unit: &'a Exp,
    own: &[&'a str],
    slots: &Slots<'a>,
) -> Result<Site<'a>, AllocError>
    ensures { IfOk result (λ made. site_of made ≡
        behind_site (inside (site_of site.now) (length slots.now) (loop_of whole.now).shared) (names_in own.now)
        (helpers_of (exp_tree unit.now))) }
{
    let filled = slots.count()?;
    let mut made = site.inside(alloc, filled, whole.shared.as_slice())?;
    let count = helpers_in(unit)?;
    made.step(own, count)?;
    Ok(made)
}

/// An iterator over elements of a pattern, and what stands behind it.
fn plan<'a>(
    alloc: Global,
    site: &Site<'a>,
    ending: Ending,
    inner: &Inner<'a>,
    unit: &'a Exp,
    pattern: &'a Exp,
    rest: &'a [Exp],
) -> Result<Planned<'a>, AllocError>
    ensures { IfOk result (λ made. IsPlan (site_of site.now) (ending_of ending) (inner_in inner.now) (exp_tree unit.now)
        (exps_of rest.now) (exp_tree pattern.now) made) }
{
    let number = own_number(unit, rest, inner)?;
    let mut own = Vec::new(alloc);
    push_names(false, pattern, &mut own)?;
    let whole = iterator_loop(alloc, site, ending, inner, number, own.as_slice(), rest)?;
    let second = together(number, 1)?;
    let turn = site.name_of(alloc, second)?;
    let mut slots = Slots::new(alloc);
    let element = matching(alloc, pattern, &whole, &mut slots)?;
    let turns = elements_of(alloc, site, &whole, unit, own.as_slice(), &slots)?;
    Ok(Planned {
        whole,
        turn,
        element,
        site: turns,
        slots,
    })
}

/// An iterator before it is put; None for a test.
pub fn plan_of<'a>(
    alloc: Global,
    site: &Site<'a>,
    ending: Ending,
    inner: &Inner<'a>,
    unit: &'a Exp,
    rest: &'a [Exp],
) -> Result<Option<Planned<'a>>, AllocError>
    ensures { IfOk result (λ made. IsPlanned (site_of site.now) (ending_of ending) (inner_in inner.now) (exp_tree unit.now)
        (exps_of rest.now) made) }
{
    match iterated(unit) {
        None => Ok(None),
        Some(pattern) => {
            let made = plan(alloc, site, ending, inner, unit, pattern, rest)?;
            Ok(Some(made))
        }
    }
}
