//! What filters leave. The first step of a case is the constraint, and each further one the domain at a place, `1..3 7` or `none`.
//! Where the first step is `places` the places have no constraint, and are filtered as those of `distinct`.

use pi_prop::filter;
use pi_prop_filters::{is_within_limits, place_count};
use pi_reif::{filter_distinct, filter_reified};
use pi_types::{Constraint, Domain, Domains};
use std::alloc::AllocError;
use tables_cases::{Case, spans_of, take_constraint, tell_span};

/// Tells what is left of the domains at the places of a constraint.
pub(crate) fn answer(case: &Case) {
    let kind = case.take_word();
    let constraint = take_constraint(case, kind);
    case.take_step_end();
    let domains = take_domains(case);
    match constraint {
        Some(constraint) => {
            tell_filtered(case, &constraint, &domains);
            drop(constraint);
        }
        None => tell_distinct(case, kind, &domains),
    }
}

/// Takes the domain of each step that is left.
fn take_domains(case: &Case) -> Domains {
    let mut domains = Vec::new(case.alloc);
    for _ in 0..case.steps() {
        let domain = take_domain(case);
        case.keep(domain, &mut domains);
        case.take_step_end();
    }
    Domains::from_vec(domains)
}

/// Takes the domain of a step.
fn take_domain(case: &Case) -> Option<Domain> {
    if case.skip("none") {
        return spans_of(case, &[]);
    }
    let words = case.take_rest();
    spans_of(case, words)
}

/// Tells what the filter of a constraint leaves.
fn tell_filtered(case: &Case, constraint: &Constraint, domains: &Domains) {
    if !is_within_limits(constraint) {
        return case.lacks("a constraint within its limits");
    }
    if domains.len() != place_count(constraint) {
        return case.lacks("a domain for each place");
    }
    let left = match constraint {
        Constraint::Reified { .. } => filter_reified(case.alloc, constraint, domains),
        _ => filter(case.alloc, constraint, domains),
    };
    tell_left(case, left);
}

/// Tells what the filter of `distinct` leaves of places that have no constraint.
fn tell_distinct(case: &Case, kind: &str, domains: &Domains) {
    if kind != "places" {
        return case.lacks("a known kind of constraint");
    }
    let left = filter_distinct(case.alloc, domains);
    tell_left(case, left);
}

/// Tells the domains that are left.
fn tell_left(case: &Case, left: Result<Domains, AllocError>) {
    let Some(left) = case.made(left) else {
        return;
    };
    for (k, domain) in left.as_slice().iter().enumerate() {
        case.tell_between(k, "; ");
        tell_spans(case, domain);
    }
}

/// Tells the spans of a domain.
fn tell_spans(case: &Case, domain: &Domain) {
    if domain.spans().is_empty() {
        return case.tell("empty");
    }
    for (i, span) in domain.spans().iter().enumerate() {
        case.tell_between(i, " ");
        tell_span(span, case);
    }
}
