//! `fd_min`, `fd_max`, `fd_size` and `fd_dom`.
ghost use Rattle.std.specs.Prelude.{◌≡◌, ℤ, pos, ◌+ℤ◌, suc, ◌≤ℤ◌, Option, None, Some, List, IfOk, Ok, map, codes, option_map};
ghost use Rattle.pi_terms.specs.Tree.{Tree, int, no_trees, tree};
ghost use Rattle.pi_constraints.specs.declared.domain.Span.{Span};
ghost use Rattle.pi_constraints.specs.Domain.{IsDomain, IsWithinBounds, numbers_from, values_of};
ghost use Rattle.std.specs.Int.{int_gap};
ghost use Rattle.pi_constraints.specs.State.{IsState, bindings, domain_at_root, followed};
ghost use Rattle.pi_constraints.specs.Store.{IsTerm, Stays};
ghost use Rattle.pi_effects.specs.Answer.{found_or};
ghost use Rattle.pi_effects.specs.Effect.{FunctionEffect};
ghost use Rattle.pi_effects.specs.Exception.{type_error};
ghost use Rattle.pi_effects.specs.Items.{list_of, list_onto};
ghost use Rattle.pi_effects.specs.Results.{ShowsTerm, ShowsEffect};
ghost use Rattle.pi_prop_spec.specs.Ends.{least_of, greatest_of};
ghost use Rattle.pi_settling.specs.DomainValues.{domain_function, domain_at, domain_then, value_list};
ghost use Rattle.pi_lib_constraints.specs.Functions.{function_name, function_done, count_of, span_values};

use pi_constraints::{Cell, Domain, Ref, Span, StateStore, StoredDomains, size};
use pi_effects::{Fault, Kind, Stop};
use pi_lib_builtin::put_list;
use std::alloc::{AllocError, Global};

/// The most values of a list. (Own.)
const MOST_VALUES: u64 = 16_777_216;

/// A function of the values of a variable or of an integer. A User's Guide to Picat, 'Constraints'.
#[derive(Clone, Copy)]
pub enum DomainFunction {
    /// `fd_min`
    Least,
    /// `fd_max`
    Greatest,
    /// `fd_size`
    Size,
    /// `fd_dom`
    Values,
}

/// What a call of such a function comes to, or what is raised. It leaves the state as it is. A User's Guide to Picat,
/// 'Constraints'; the limit and exceptions are own.
pub fn call_domain_function<S: StoredDomains>(
    alloc: Global,
    s: &mut S,
    function: DomainFunction,
    arg: Ref,
) -> Result<Ref, Stop>
    ensures stays { Stays (S.seen s.old) (S.seen s.new) }
    ensures shows { (t : Tree) (e : FunctionEffect) → IsState (S.seen s.old).now.state → IsTerm (S.seen s.old) arg t →
        domain_function (function_name function) (tree t no_trees) (S.seen s.old).now.state ≡ Some e →
        ShowsEffect (S.seen s.old) (S.seen s.new) result e }
{
    match function {
        DomainFunction::Least => {
            let found = least_at(s, arg);
            put_number(s, arg, found)
        }
        DomainFunction::Greatest => {
            let found = greatest_at(s, arg);
            put_number(s, arg, found)
        }
        DomainFunction::Size => {
            let found = size_at(alloc, s, arg)?;
            put_number(s, arg, found)
        }
        DomainFunction::Values => listed(alloc, s, arg),
    }
}

/// The least value that a term has; None where it has none. It takes no memory.
fn least_at<S: StoredDomains>(s: &S, term: Ref) -> Option<i128>
    ensures { (t : Tree) → IsState (S.seen s.now).now.state → IsTerm (S.seen s.now) term t →
        result ≡ option_map least_of (domain_at (S.seen s.now).now.state (followed (bindings (S.seen s.now).now.state) t)) }
{
    match s.look(term) {
        Cell::Var(n) => {
            let count = s.span_count(n);
            if count > 0 {
                return Some(i128::from(s.span(n, 0).lo));
            }
            None
        }
        Cell::Int(i) => Some(i),
        Cell::Atom(_) => None,
        Cell::Comp(_, _) => None,
    }
}

/// The greatest value that a term has; None where it has none. It takes no memory.
fn greatest_at<S: StoredDomains>(s: &S, term: Ref) -> Option<i128>
    ensures { (t : Tree) → IsState (S.seen s.now).now.state → IsTerm (S.seen s.now) term t →
        result ≡ option_map greatest_of (domain_at (S.seen s.now).now.state (followed (bindings (S.seen s.now).now.state) t)) }
{
    match s.look(term) {
        Cell::Var(n) => {
            let count = s.span_count(n);
            if count > 0 {
                return Some(i128::from(s.span(n, count - 1).hi));
            }
            None
        }
        Cell::Int(i) => Some(i),
        Cell::Atom(_) => None,
        Cell::Comp(_, _) => None,
    }
}

/// How many values a term has; None where it has none.
fn size_at<S: StateStore>(alloc: Global, s: &S, term: Ref) -> Result<Option<i128>, AllocError>
    ensures { IfOk result (λ found. (t : Tree) → IsState (S.seen s.now).now.state → IsTerm (S.seen s.now) term t →
        found ≡ option_map count_of (domain_at (S.seen s.now).now.state (followed (bindings (S.seen s.now).now.state) t))) }
{
    let found = s.domain(alloc, term)?;
    match found {
        Some(domain) => Ok(Some(i128::from(size(&domain)))),
        None => Ok(one_at(s, term)),
    }
}

/// How many values a term without a domain has: an integer has one.
fn one_at<S: StateStore>(s: &S, term: Ref) -> Option<i128>
    ensures { (t : Tree) → IsState (S.seen s.now).now.state → IsTerm (S.seen s.now) term t →
        domain_at_root (S.seen s.now).now.state (followed (bindings (S.seen s.now).now.state) t) ≡ None →
        result ≡ option_map count_of (domain_at (S.seen s.now).now.state (followed (bindings (S.seen s.now).now.state) t)) }
{
    match s.look(term) {
        Cell::Int(_) => Some(1),
        Cell::Var(_) => None,
        Cell::Atom(_) => None,
        Cell::Comp(_, _) => None,
    }
}

/// Puts a number of the values of a term; one that has none is of a wrong kind.
fn put_number<S: StateStore>(s: &mut S, term: Ref, found: Option<i128>) -> Result<Ref, Stop>
    ensures stays { Stays (S.seen s.old) (S.seen s.new) }
    ensures shows { (t : Tree) (f : List Span → ℤ) (o : Option (List Span)) → IsTerm (S.seen s.old) term t →
        found ≡ option_map f o → ShowsTerm (S.seen s.old) (S.seen s.new) result
        (found_or o (type_error (codes "domain") t (S.seen s.old).now.state) (λ d. Ok (int (f d)))) }
{
    match found {
        Some(n) => Ok(s.put_int(n)?),
        None => Err(Stop::Raised(Fault::WrongKind(Kind::Domain, term))),
    }
}

/// Puts the list of the values that a term has.
fn listed<S: StateStore>(alloc: Global, s: &mut S, term: Ref) -> Result<Ref, Stop>
    ensures stays { Stays (S.seen s.old) (S.seen s.new) }
    ensures shows { (t : Tree) → IsState (S.seen s.old).now.state → IsTerm (S.seen s.old) term t →
        ShowsTerm (S.seen s.old) (S.seen s.new) result (domain_then (S.seen s.old).now.state t value_list) }
{
    let found = s.domain(alloc, term)?;
    match found {
        Some(domain) => put_domain(s, &domain),
        None => put_only(s, term),
    }
}

/// Puts the list of the one value that a term without a domain has, where it is an integer.
fn put_only<S: StateStore>(s: &mut S, term: Ref) -> Result<Ref, Stop>
    ensures stays { Stays (S.seen s.old) (S.seen s.new) }
    ensures shows { (t : Tree) → IsState (S.seen s.old).now.state → IsTerm (S.seen s.old) term t →
        domain_at_root (S.seen s.old).now.state (followed (bindings (S.seen s.old).now.state) t) ≡ None →
        ShowsTerm (S.seen s.old) (S.seen s.new) result (domain_then (S.seen s.old).now.state t value_list) }
{
    match s.look(term) {
        Cell::Int(i) => {
            let value = s.put_int(i)?;
            let made = put_list(s, &[value])?;
            Ok(made)
        }
        Cell::Var(_) => Err(Stop::Raised(Fault::WrongKind(Kind::Domain, term))),
        Cell::Atom(_) => Err(Stop::Raised(Fault::WrongKind(Kind::Domain, term))),
        Cell::Comp(_, _) => Err(Stop::Raised(Fault::WrongKind(Kind::Domain, term))),
    }
}

/// Puts the list of the values of a domain.
fn put_domain<S: StateStore>(s: &mut S, domain: &Domain) -> Result<Ref, Stop>
    ensures stays { Stays (S.seen s.old) (S.seen s.new) }
    ensures shows { ShowsTerm (S.seen s.old) (S.seen s.new) result (value_list domain.now) }
{
    let spans = domain.spans();
    if size(domain) > MOST_VALUES {
        return Err(Stop::Raised(Fault::RangeTooLong));
    }
    let made = put_spans(s, spans)?;
    Ok(made)
}

/// Puts the list of the values of spans, from the last one on.
fn put_spans<S: StateStore>(s: &mut S, spans: &[Span]) -> Result<Ref, AllocError>
    requires { IsDomain spans.now }
    ensures stays { Stays (S.seen s.old) (S.seen s.new) }
    ensures ok { IfOk result (λ made. IsTerm (S.seen s.new) made (list_of (map int (values_of spans.now)))) }
{
    let mut list = s.put_atom("[]")?;
    for k in (0..spans.len()).rev() {
        list = put_span(s, spans[k], list)?;
    }
    Ok(list)
}

/// Puts the values of a span in front of a list, from the last one on.
fn put_span<S: StateStore>(s: &mut S, span: Span, rest: Ref) -> Result<Ref, AllocError>
    requires ordered { span.lo ≤ℤ span.hi }
    requires low { IsWithinBounds span.lo }
    requires high { IsWithinBounds span.hi }
    ensures stays { Stays (S.seen s.old) (S.seen s.new) }
    ensures ok { IfOk result (λ made. (t : Tree) → IsTerm (S.seen s.old) rest t →
        IsTerm (S.seen s.new) made (list_onto (map int (span_values span)) t)) }
{
    let made = put_numbers(s, span.lo, width(span), rest)?;
    Ok(made)
}

/// How many values a span has.
fn width(span: Span) -> u64
    requires ordered { span.lo ≤ℤ span.hi }
    requires low { IsWithinBounds span.lo }
    requires high { IsWithinBounds span.hi }
    ensures { result ≡ suc (int_gap span.lo span.hi) }
{
    (span.hi - span.lo) as u64 + 1
}

/// Puts so many numbers, ascending from one on, in front of a list, from the last one on.
fn put_numbers<S: StateStore>(s: &mut S, low: i64, count: u64, rest: Ref) -> Result<Ref, AllocError>
    ensures stays { Stays (S.seen s.old) (S.seen s.new) }
    ensures ok { IfOk result (λ made. (t : Tree) → IsTerm (S.seen s.old) rest t →
        IsTerm (S.seen s.new) made (list_onto (map int (numbers_from low count)) t)) }
{
    let mut list = rest;
    for k in (0..count).rev() {
        let value = s.put_int(number_after(low, k))?;
        list = s.put_comp("[|]", &[value, list])?;
    }
    Ok(list)
}

/// The number that a number becomes in so many steps of 1.
fn number_after(low: i64, steps: u64) -> i128
    ensures { result ≡ low +ℤ pos steps }
{
    i128::from(low) + i128::from(steps)
}
