//! Goals that post constraints.
ghost use Rattle.std.specs.Prelude.{◌≡◌, ℕ, ◌<◌, ◌+◌, IfOk, Contains, List};
ghost use Rattle.pi_terms.specs.Tree.{Tree};
ghost use Rattle.pi_constraints.specs.declared.constraint.Constraint.{Constraint};
ghost use Rattle.pi_constraints.specs.declared.constraint.Item.{Item};
ghost use Rattle.pi_constraints.specs.Constraint.{SpeaksOf, HoldVariable, IsWithinLimits};
ghost use Rattle.pi_constraints.specs.Evaluation.{with_new_variables};
ghost use Rattle.pi_constraints.specs.State.{IsState, MayPost, SpeaksBelow, bindings, next};
ghost use Rattle.pi_constraints.specs.Store.{IsTerm, Keeps};
ghost use Rattle.pi_constraints.specs.Value.{value};
ghost use Rattle.pi_prop_made.specs.Finished.{posting_as};
ghost use Rattle.pi_prop_read.specs.Called.{goal_as, HasParts};
ghost use Rattle.pi_prop_spec.specs.Postings.{posting_in};
ghost use Rattle.pi_prop_spec.specs.Terms.{goal_of};
ghost use Rattle.pi_settling.specs.Confined.{confined, confined_at};
ghost use Rattle.pi_settling.specs.Posted.{posting_goal, posted_in, with_constraints, places_of_all};
ghost use Rattle.pi_settling.specs.Roots.{root_item, all_values};
ghost use Rattle.pi_lib.specs.Outcomes.{ShowsOutcome};
ghost use Rattle.pi_lib_constraints.specs.Kept.{item_term};
ghost use Rattle.pi_lib_constraints.specs.Posts.{fault_of, MayPostAll, ShowsPosted};

use crate::defaults::default_domain;
use pi_constraints::{Cell, Constraint, Domain, Item, Ref, StateStore, StoredDomains};
use pi_effects::{Fault, Stop};
use pi_lib::Outcome;
use pi_prop_filters::places;
use pi_prop_made::Posting;
use pi_prop_read::{PostingGoal, PostingStop, read_posting};
use std::alloc::{AllocError, Global};

/// Posts what a goal posts, and gives the variables of that which have no domain the default one; or what is raised. A User's
/// Guide to Picat, 'Constraints'; limits, exceptions and the default domain are own.
pub(crate) fn post<S: StoredDomains>(
    alloc: Global,
    s: &mut S,
    goal: PostingGoal,
) -> Result<Outcome, Stop>
    ensures keeps { Keeps (S.seen s.old) (S.seen s.new) }
    ensures shows { (t : Tree) → IsState (S.seen s.old).now.state → HasParts (S.seen s.old).now goal →
        SpeaksBelow (next (S.seen s.old).now.state) t →
        goal_of (value (bindings (S.seen s.old).now.state) t) ≡ goal_as (S.seen s.old).now goal →
        ShowsOutcome (S.seen s.old) (S.seen s.new) result (posting_goal (S.seen s.old).now.state t) }
{
    match post_goal(alloc, s, goal) {
        Ok(()) => Ok(Outcome::Yes),
        Err(stop) => Err(stop),
    }
}

/// The same, where it is asked just whether something was posted.
pub(crate) fn post_goal<S: StoredDomains>(
    alloc: Global,
    s: &mut S,
    goal: PostingGoal,
) -> Result<(), Stop>
    ensures keeps { Keeps (S.seen s.old) (S.seen s.new) }
    ensures shows { (t : Tree) → IsState (S.seen s.old).now.state → HasParts (S.seen s.old).now goal →
        SpeaksBelow (next (S.seen s.old).now.state) t →
        goal_of (value (bindings (S.seen s.old).now.state) t) ≡ goal_as (S.seen s.old).now goal →
        ShowsPosted (S.seen s.old) (S.seen s.new) result (posting_in (S.seen s.old).now.state t) }
{
    match read_posting(alloc, s, goal) {
        Ok(posting) => {
            put_posting(alloc, s, &posting)?;
            Ok(())
        }
        Err(stop) => Err(fault_of(stop)),
    }
}

/// What is raised where a goal has no posting.
pub(crate) fn fault_of(stop: PostingStop) -> Stop
    ensures { result ≡ fault_of stop }
{
    match stop {
        PostingStop::NotAConstraint(term) => Stop::Raised(Fault::NotAConstraint(term)),
        PostingStop::TooManyTerms => Stop::Raised(Fault::ConstraintTooLarge),
        PostingStop::WideCoefficient => Stop::Raised(Fault::ConstraintTooLarge),
        PostingStop::Memory => Stop::Memory,
    }
}

/// Makes the new variables of a posting, posts its constraints, and confines their variables.
pub(crate) fn put_posting<S: StoredDomains>(
    alloc: Global,
    s: &mut S,
    posting: &Posting,
) -> Result<(), AllocError>
    ensures keeps { Keeps (S.seen s.old) (S.seen s.new) }
    ensures ok { IfOk result (λ _. IsState (S.seen s.old).now.state →
        MayPostAll (next (S.seen s.old).now.state + posting.now.fresh) posting.now.list →
        (S.seen s.new).now.state ≡ posted_in (S.seen s.old).now.state (posting_as posting.now)) }
{
    make_variables(s, posting.fresh)?;
    post_all(s, posting.list.as_slice())?;
    let default = default_domain(alloc)?;
    confine_all(alloc, s, posting.list.as_slice(), &default)?;
    Ok(())
}

/// Makes so many new variables.
fn make_variables<S: StateStore>(s: &mut S, count: u64) -> Result<(), AllocError>
    ensures keeps { Keeps (S.seen s.old) (S.seen s.new) }
    ensures ok { IfOk result (λ _. (S.seen s.new).now.state ≡ with_new_variables count (S.seen s.old).now.state) }
{
    for _k in 0..count {
        s.new_var()?;
    }
    Ok(())
}

/// Posts constraints, in their order.
fn post_all<S: StateStore>(s: &mut S, constraints: &[Constraint]) -> Result<(), AllocError>
    ensures keeps { Keeps (S.seen s.old) (S.seen s.new) }
    ensures ok { IfOk result (λ _. MayPostAll (next (S.seen s.old).now.state) constraints.now →
        (S.seen s.new).now.state ≡ with_constraints constraints.now (S.seen s.old).now.state) }
{
    for k in 0..constraints.len() {
        s.post(&constraints[k])?;
    }
    Ok(())
}

/// Gives the variables of constraints that have no domain the default one.
fn confine_all<S: StoredDomains>(
    alloc: Global,
    s: &mut S,
    constraints: &[Constraint],
    default: &Domain,
) -> Result<(), AllocError>
    ensures keeps { Keeps (S.seen s.old) (S.seen s.new) }
    ensures ok { IfOk result (λ _. IsState (S.seen s.old).now.state → default.now ≡ all_values →
        MayPostAll (next (S.seen s.old).now.state) constraints.now →
        (S.seen s.new).now.state ≡ confined (S.seen s.old).now.state (places_of_all constraints.now)) }
{
    for k in 0..constraints.len() {
        let items = places(alloc, &constraints[k])?;
        confine_items(s, &items, default)?;
    }
    Ok(())
}

/// Gives the variables among items that have no domain the default one.
fn confine_items<S: StoredDomains>(
    s: &mut S,
    items: &[Item],
    default: &Domain,
) -> Result<(), AllocError>
    ensures keeps { Keeps (S.seen s.old) (S.seen s.new) }
    ensures ok { IfOk result (λ _. IsState (S.seen s.old).now.state → default.now ≡ all_values →
        ((n : ℕ) → HoldVariable items.now n → n < next (S.seen s.old).now.state) →
        (S.seen s.new).now.state ≡ confined (S.seen s.old).now.state items.now) }
{
    for k in 0..items.len() {
        confine(s, items[k], default)?;
    }
    Ok(())
}

/// Gives an item that is a variable without a domain the default one.
fn confine<S: StoredDomains>(s: &mut S, item: Item, default: &Domain) -> Result<(), AllocError>
    ensures keeps { Keeps (S.seen s.old) (S.seen s.new) }
    ensures ok { IfOk result (λ _. IsState (S.seen s.old).now.state → default.now ≡ all_values →
        ((n : ℕ) → item ≡ Item.Var n → n < next (S.seen s.old).now.state) →
        (S.seen s.new).now.state ≡ confined_at (S.seen s.old).now.state (root_item (S.seen s.old).now.state item)) }
{
    match item {
        Item::Int(_) => Ok(()),
        Item::Var(v) => {
            let at = s.var_ref(v);
            confine_at(s, at, default)?;
            Ok(())
        }
    }
}

/// Gives an item that comes to a variable which isn't bound and has no domain the default one. An `Err` stands for want of
/// memory. (Own.)
pub fn confine_at<S: StoredDomains>(s: &mut S, at: Ref, default: &Domain) -> Result<(), AllocError>
    ensures keeps { Keeps (S.seen s.old) (S.seen s.new) }
    ensures ok { IfOk result (λ _. (x : Item) → IsState (S.seen s.old).now.state → default.now ≡ all_values →
        IsTerm (S.seen s.old) at (item_term x) →
        (S.seen s.new).now.state ≡ confined_at (S.seen s.old).now.state (root_item (S.seen s.old).now.state x)) }
{
    let Cell::Var(n) = s.look(at) else {
        return Ok(());
    };
    if s.span_count(n) > 0 {
        return Ok(());
    }
    s.set_domain(at, default)?;
    Ok(())
}
