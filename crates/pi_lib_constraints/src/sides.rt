//! The right side of `::` and `notin`.
ghost use Rattle.std.specs.Prelude.{◌≡◌, List, [], map, codes, option_and_then, IfOk};
ghost use Rattle.pi_terms.specs.Tree.{Tree};
ghost use Rattle.pi_constraints.specs.State.{bindings};
ghost use Rattle.pi_constraints.specs.Store.{IsTerm};
ghost use Rattle.pi_constraints.specs.Value.{value};
ghost use Rattle.pi_effects.specs.Exception.{type_error};
ghost use Rattle.pi_effects.specs.Items.{list_items as items_of};
ghost use Rattle.pi_effects.specs.Results.{ShowsSame};
ghost use Rattle.pi_lib_builtin.specs.Items.{AreItems};
ghost use Rattle.pi_settling.specs.RightSide.{side_domain, judged_or, range_of, range_by, listed, integers_of};
ghost use Rattle.pi_unify.specs.Terms.{HoldsNoCycle};
ghost use Rattle.pi_lib_constraints.specs.Sides.{ShowsNumbers, judged};

use crate::shapes::{Shape, number_at, shape_at};
use crate::values::{SideStop, range_domain, steps_domain, values_domain};
use pi_constraints::{Domain, Ref, StateStore};
use pi_effects::{Fault, Kind, Stop};
use pi_lib_builtin::list_items;
use std::alloc::{AllocError, Global};

/// The domain that a right side stands for, or what is raised. Where it is strict, each value has to be one that a domain can
/// have. A range is one span; only the values of a list and of a range with a step are gone through. A User's Guide to Picat,
/// 'Constraints'; limits and exceptions are own.
pub(crate) fn side_domain<S: StateStore>(
    alloc: Global,
    s: &S,
    term: Ref,
    strict: bool,
) -> Result<Domain, Stop>
    ensures { (t : Tree) → HoldsNoCycle (S.seen s.now) → IsTerm (S.seen s.now) term t →
        ShowsSame (S.seen s.now) result (side_domain strict (S.seen s.now).now.state t) }
{
    match shape_at(s, term) {
        Shape::Range(lo, hi) => ranged(alloc, s, term, lo, hi, strict),
        Shape::Steps(lo, step, hi) => stepped(alloc, s, term, lo, step, hi, strict),
        Shape::Other => listed(alloc, s, term, strict),
    }
}

/// A range, whose bounds have to be integers.
fn ranged<S: StateStore>(
    alloc: Global,
    s: &S,
    term: Ref,
    lo: Ref,
    hi: Ref,
    strict: bool,
) -> Result<Domain, Stop>
    ensures { (t x y : Tree) → HoldsNoCycle (S.seen s.now) → IsTerm (S.seen s.now) term t → IsTerm (S.seen s.now) lo x →
        IsTerm (S.seen s.now) hi y → ShowsSame (S.seen s.now) result
        (judged_or strict (type_error (codes "domain") t (S.seen s.now).now.state)
        (range_of (value (bindings (S.seen s.now).now.state) x) (value (bindings (S.seen s.now).now.state) y))) }
{
    let Some(lo) = number_at(s, lo) else {
        return Err(Stop::Raised(Fault::WrongKind(Kind::Domain, term)));
    };
    let Some(hi) = number_at(s, hi) else {
        return Err(Stop::Raised(Fault::WrongKind(Kind::Domain, term)));
    };
    judged(range_domain(alloc, lo, hi, strict))
}

/// A range with a step. Its bounds and its step have to be integers.
fn stepped<S: StateStore>(
    alloc: Global,
    s: &S,
    term: Ref,
    lo: Ref,
    step: Ref,
    hi: Ref,
    strict: bool,
) -> Result<Domain, Stop>
    ensures { (t x y z : Tree) → HoldsNoCycle (S.seen s.now) → IsTerm (S.seen s.now) term t → IsTerm (S.seen s.now) lo x →
        IsTerm (S.seen s.now) step y → IsTerm (S.seen s.now) hi z → ShowsSame (S.seen s.now) result
        (judged_or strict (type_error (codes "domain") t (S.seen s.now).now.state)
        (range_by (value (bindings (S.seen s.now).now.state) x) (value (bindings (S.seen s.now).now.state) y)
        (value (bindings (S.seen s.now).now.state) z))) }
{
    let Some(lo) = number_at(s, lo) else {
        return Err(Stop::Raised(Fault::WrongKind(Kind::Domain, term)));
    };
    let Some(step) = number_at(s, step) else {
        return Err(Stop::Raised(Fault::WrongKind(Kind::Domain, term)));
    };
    let Some(hi) = number_at(s, hi) else {
        return Err(Stop::Raised(Fault::WrongKind(Kind::Domain, term)));
    };
    judged(steps_domain(alloc, lo, step, hi, strict))
}

/// The integers of a proper list.
fn listed<S: StateStore>(alloc: Global, s: &S, term: Ref, strict: bool) -> Result<Domain, Stop>
    ensures { (t : Tree) → HoldsNoCycle (S.seen s.now) → IsTerm (S.seen s.now) term t → ShowsSame (S.seen s.now) result
        (judged_or strict (type_error (codes "domain") t (S.seen s.now).now.state)
        (listed (value (bindings (S.seen s.now).now.state) t))) }
{
    let found = numbers_of(alloc, s, term)?;
    match found {
        Some(numbers) => judged(values_domain(alloc, &numbers, strict)),
        None => Err(Stop::Raised(Fault::WrongKind(Kind::Domain, term))),
    }
}

/// What is raised in place of a domain.
fn judged(made: Result<Domain, SideStop>) -> Result<Domain, Stop>
    ensures { result ≡ judged made }
{
    match made {
        Ok(domain) => Ok(domain),
        Err(SideStop::TooWide) => Err(Stop::Raised(Fault::DomainTooWide)),
        Err(SideStop::NoStep) => Err(Stop::Raised(Fault::BadRange)),
        Err(SideStop::TooLong) => Err(Stop::Raised(Fault::RangeTooLong)),
        Err(SideStop::Memory) => Err(Stop::Memory),
    }
}

/// The integers that the items of a proper list are; None where it is none, or one of them is none.
fn numbers_of<S: StateStore>(
    alloc: Global,
    s: &S,
    term: Ref,
) -> Result<Option<Vec<i128>>, AllocError>
    ensures { IfOk result (λ found. (t : Tree) → HoldsNoCycle (S.seen s.now) → IsTerm (S.seen s.now) term t →
        ShowsNumbers found (option_and_then integers_of (items_of [] (value (bindings (S.seen s.now).now.state) t)))) }
{
    match list_items(alloc, s, term) {
        Ok(items) => {
            let found = numbers_at(alloc, s, &items)?;
            Ok(found)
        }
        Err(Stop::Raised(_)) => Ok(None),
        Err(Stop::Memory) => Err(AllocError),
    }
}

/// The integers that terms are; None where one is none.
fn numbers_at<S: StateStore>(
    alloc: Global,
    s: &S,
    items: &[Ref],
) -> Result<Option<Vec<i128>>, AllocError>
    ensures { IfOk result (λ found. (ts : List Tree) → HoldsNoCycle (S.seen s.now) → AreItems (S.seen s.now) items.now ts →
        ShowsNumbers found (integers_of (map (value (bindings (S.seen s.now).now.state)) ts))) }
{
    let mut numbers = Vec::new(alloc);
    for k in 0..items.len() {
        match number_at(s, items[k]) {
            Some(n) => numbers.push(n)?,
            None => return Ok(None),
        }
    }
    Ok(Some(numbers))
}
