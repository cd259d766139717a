//! Calls, by their form.
ghost use Rattle.std.specs.Prelude.{◌≡◌, ◌==◌, ◌&&◌, length, Some, IfOk};
ghost use Rattle.std.specs.Str.{bytes_eq};
ghost use Rattle.pi_syntax.specs.ExpTree.{exp_tree, call as call_tree};
ghost use Rattle.pi_syntax.specs.ExpLists.{exps_of};
ghost use Rattle.pi_meaning.specs.Shared.Names.{is_call};
ghost use Rattle.pi_meaning.specs.OverNames.Forms.{form_of, catch};
ghost use Rattle.pi_rewrite_spec.specs.Sites.{behind_exp};
ghost use Rattle.pi_rewrite_spec.specs.Helpers.{value_helpers};
ghost use Rattle.pi_rewrite_slots.specs.ReadAs.{reading_of};
ghost use Rattle.pi_rewrite_sites.specs.SiteOf.{site_of};
ghost use Rattle.pi_rewrite_loops.specs.Parts.{AreGoals, IsValue};
ghost use Rattle.pi_rewrite_goals.specs.Lowering.{With, GivesAs, so_far, value_of, call_as_goal, call_as_value, call_goal_helpers, call_value_helpers};
ghost use Rattle.pi_rewrite_goals.specs.Calls.{HasCount, IsForm, IsTermForm, AreCatchSites, assigned_to, atom_tree, term_form, collected_of, counted_of};

use crate::assigned::push_assigned;
use crate::goals::{alone, push_goal};
use crate::put::push_made;
use crate::slotted::{applied, slotted};
use crate::values::{value, values, values_as};
use pi_core::{CoreGoal, CorePred};
use pi_rewrite_loops::{in_turn, push_fail};
use pi_rewrite_sites::Site;
use pi_rewrite_slots::{Reading, Readings, Slots};
use pi_syntax::Exp;
use pi_terms::Term;
use std::alloc::{AllocError, Global};

/// How a call is lowered as a goal.
#[derive(Drop)]
pub(crate) enum CallForm {
    Negation,
    Once,
    Assignment,
    Catch,
    /// What stands in no such place.
    Never,
    Plain,
}

/// Whether a call has this name and so many arguments.
fn is_call_of(name: &str, count: usize, other: &str, arity: usize) -> bool
    ensures { result ≡ (count == arity && bytes_eq name.now other.now) }
{
    count == arity && name == other
}

/// The form of a call.
fn call_form(name: &str, count: usize) -> CallForm
    ensures has { HasCount result count }
    ensures is { IsForm result (form_of name.now count) }
{
    if is_call_of(name, count, "not", 1) {
        return CallForm::Negation;
    }
    if is_call_of(name, count, "once", 1) {
        return CallForm::Once;
    }
    if is_call_of(name, count, ":=", 2) {
        return CallForm::Assignment;
    }
    if is_call_of(name, count, "catch", 3) {
        return CallForm::Catch;
    }
    other_form(name, count)
}

/// The form of a call that is none of those that have goals in them.
fn other_form(name: &str, count: usize) -> CallForm
    ensures has { IsTermForm result }
    ensures is { IsForm result (term_form name.now count) }
{
    if is_by_term(name, count) {
        return CallForm::Plain;
    }
    if is_call_of(name, count, "in", 2) {
        return CallForm::Never;
    }
    CallForm::Plain
}

/// Whether a call is one of what a term says.
fn is_by_term(name: &str, count: usize) -> bool
    ensures { result ≡ is_call name.now count }
{
    1 <= count && count <= 8 && name == "call"
}

/// The goal that an atom is.
pub(crate) fn atom_goal(alloc: Global, name: &str) -> Result<CoreGoal, AllocError>
    ensures { IfOk result (λ made. made ≡ atom_tree name.now) }
{
    if name == "true" {
        return CoreGoal::truth(alloc);
    }
    if name == "fail" {
        return CoreGoal::fail(alloc);
    }
    CoreGoal::call(alloc, name, &[])
}

/// Puts a call as a goal behind the others.
#[cycle(lowering)]
pub(crate) fn push_call<'a>(
    alloc: Global,
    site: &Site<'a>,
    name: &str,
    args: &'a [Exp],
    slots: &mut Slots<'a>,
    goals: &mut Vec<CoreGoal>,
    helpers: &mut Vec<CorePred>,
) -> Result<(), AllocError>
    ensures { IfOk result (λ _. With (AreGoals (call_as_goal (site_of site.now) name.now (exps_of args.now) slots.old)
        goals.old.items goals.new.items slots.new) helpers.old.items helpers.new.items
        (call_goal_helpers (site_of site.now) name.now (exps_of args.now))) }
{
    match call_form(name, args.len()) {
        CallForm::Negation => {
            let goal = alone(alloc, site, &args[0], slots, helpers)?;
            push_made(CoreGoal::not(alloc, goal), goals)
        }
        CallForm::Once => {
            let goal = alone(alloc, site, &args[0], slots, helpers)?;
            push_made(CoreGoal::once(alloc, goal), goals)
        }
        CallForm::Assignment => {
            push_assignment(alloc, site, &args[1], &args[0], slots, goals, helpers)
        }
        CallForm::Catch => push_catch(alloc, site, name, args, slots, goals, helpers),
        CallForm::Never => push_fail(alloc, goals),
        CallForm::Plain => {
            let readings = Readings::of_goal(name, args.len());
            let terms = values_as(alloc, false, readings, site, args, slots, goals, helpers)?;
            push_made(CoreGoal::call(alloc, name, &terms), goals)
        }
    }
}

/// Puts an assignment behind the other goals.
#[cycle(lowering)]
fn push_assignment<'a>(
    alloc: Global,
    site: &Site<'a>,
    from: &'a Exp,
    to: &'a Exp,
    slots: &mut Slots<'a>,
    goals: &mut Vec<CoreGoal>,
    helpers: &mut Vec<CorePred>,
) -> Result<(), AllocError>
    ensures { IfOk result (λ _. With (AreGoals (assigned_to (exp_tree to.now)
        (value_of (behind_exp (site_of site.now) (exp_tree to.now)) (exp_tree from.now) slots.old)) goals.old.items goals.new.items
        slots.new) helpers.old.items helpers.new.items
        (value_helpers (behind_exp (site_of site.now) (exp_tree to.now)) (exp_tree from.now))) }
{
    let behind = site.behind(alloc, to)?;
    let term = value(alloc, true, &behind, from, slots, goals, helpers)?;
    push_assigned(alloc, to, term, slots, goals)
}

/// Puts a goal whose exceptions are caught behind the others.
#[cycle(lowering)]
fn push_catch<'a>(
    alloc: Global,
    site: &Site<'a>,
    name: &str,
    args: &'a [Exp],
    slots: &mut Slots<'a>,
    goals: &mut Vec<CoreGoal>,
    helpers: &mut Vec<CorePred>,
) -> Result<(), AllocError>
    ensures { IfOk result (λ _. length args.now ≡ 3 → form_of name.now (length args.now) ≡ Some catch →
        With (AreGoals (call_as_goal (site_of site.now) name.now (exps_of args.now) slots.old) goals.old.items goals.new.items
        slots.new) helpers.old.items helpers.new.items (call_goal_helpers (site_of site.now) name.now (exps_of args.now))) }
{
    if args.len() < 3 {
        return push_fail(alloc, goals);
    }
    let goal = &args[0];
    let ball = &args[1];
    let handler = &args[2];
    let sites = catch_sites(alloc, site, goal, ball)?;
    let term = value(alloc, true, &sites.ball, ball, slots, goals, helpers)?;
    let one = alone(alloc, &sites.goal, goal, slots, helpers)?;
    let other = alone(alloc, &sites.handler, handler, slots, helpers)?;
    push_made(CoreGoal::catch(alloc, one, &term, other), goals)
}

/// Where the parts of a `catch` stand: what is caught first, then the goal, then what is done then.
pub(crate) struct CatchSites<'a> {
    pub(crate) ball: Site<'a>,
    pub(crate) goal: Site<'a>,
    pub(crate) handler: Site<'a>,
}

// By hand, so that letting one go is a call and not its parts at each way out.
impl<'a> Drop for CatchSites<'a> {
    fn drop(self) {
        let CatchSites {
            ball: _,
            goal: _,
            handler: _,
        } = self;
    }
}

/// Where the parts of a `catch` stand.
fn catch_sites<'a>(
    alloc: Global,
    site: &Site<'a>,
    goal: &'a Exp,
    ball: &'a Exp,
) -> Result<CatchSites<'a>, AllocError>
    ensures { IfOk result (λ made. AreCatchSites (site_of site.now) (exp_tree goal.now) (exp_tree ball.now) made) }
{
    let first = site.behind_names(alloc, goal)?;
    let second = site.behind(alloc, ball)?;
    let third = second.behind(alloc, goal)?;
    let last = third.behind_names(alloc, ball)?;
    Ok(CatchSites {
        ball: first,
        goal: second,
        handler: last,
    })
}

/// A call that is read so: it may stay as a structure.
#[cycle(lowering)]
pub(crate) fn read_call<'a>(
    alloc: Global,
    reading: Reading,
    site: &Site<'a>,
    name: &str,
    args: &'a [Exp],
    slots: &mut Slots<'a>,
    goals: &mut Vec<CoreGoal>,
    helpers: &mut Vec<CorePred>,
) -> Result<Term, AllocError>
    ensures { IfOk result (λ term. GivesAs (reading_of reading) (site_of site.now) (call_tree name.now (exps_of args.now)) term
        (so_far slots.old goals.old.items helpers.old.items) (so_far slots.new goals.new.items helpers.new.items)) }
{
    if !reading.stays(name, args.len()) {
        return call_value(alloc, site, name, args, slots, goals, helpers);
    }
    let readings = reading.of_parts(name, args.len());
    let parts = values_as(alloc, true, readings, site, args, slots, goals, helpers)?;
    Term::comp(alloc, name, &parts)
}

/// The value of a call.
#[cycle(lowering)]
fn call_value<'a>(
    alloc: Global,
    site: &Site<'a>,
    name: &str,
    args: &'a [Exp],
    slots: &mut Slots<'a>,
    goals: &mut Vec<CoreGoal>,
    helpers: &mut Vec<CorePred>,
) -> Result<Term, AllocError>
    ensures { IfOk result (λ term. With (IsValue (call_as_value (site_of site.now) name.now (exps_of args.now) slots.old)
        goals.old.items goals.new.items term slots.new) helpers.old.items helpers.new.items
        (call_value_helpers (site_of site.now) name.now (exps_of args.now))) }
{
    if is_call_of(name, args.len(), "find_all", 2) {
        let item = &args[0];
        let goal = &args[1];
        let first = site.behind_names(alloc, item)?;
        let mut inner = Vec::new(alloc);
        push_goal(alloc, &first, goal, slots, &mut inner, helpers)?;
        let behind = site.behind(alloc, goal)?;
        let term = value(alloc, true, &behind, item, slots, &mut inner, helpers)?;
        return collected(alloc, term, inner, slots, goals);
    }
    if is_call_of(name, args.len(), "count_all", 1) {
        let goal = alone(alloc, site, &args[0], slots, helpers)?;
        return counted(alloc, goal, slots, goals);
    }
    let terms = values(alloc, false, site, args, slots, goals, helpers)?;
    applied(alloc, name, &terms, slots, goals)
}

/// The list of the values that a term has after each answer of the goals.
fn collected<'a>(
    alloc: Global,
    term: Term,
    inner: Vec<CoreGoal>,
    slots: &mut Slots<'a>,
    goals: &mut Vec<CoreGoal>,
) -> Result<Term, AllocError>
    ensures { IfOk result (λ list. IsValue (collected_of inner.items term slots.old) goals.old.items goals.new.items list slots.new) }
{
    let mut inner = inner;
    let place = slotted(alloc, term, slots, &mut inner)?;
    let goal = in_turn(alloc, inner)?;
    let into = slots.value_slot()?;
    let made = CoreGoal::collect(alloc, goal, place, into)?;
    goals.push(made)?;
    Term::var(alloc, u64::from(into))
}

/// The number of the answers of a goal.
fn counted<'a>(
    alloc: Global,
    goal: CoreGoal,
    slots: &mut Slots<'a>,
    goals: &mut Vec<CoreGoal>,
) -> Result<Term, AllocError>
    ensures { IfOk result (λ number. IsValue (counted_of goal slots.old) goals.old.items goals.new.items number slots.new) }
{
    let into = slots.value_slot()?;
    let made = CoreGoal::count(alloc, goal, into)?;
    goals.push(made)?;
    Term::var(alloc, u64::from(into))
}
