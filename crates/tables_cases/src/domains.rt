//! Domains in words: `1..3 5..5`.

use crate::case::Case;
use crate::fault::Problem;
use pi_dom::{DomFault, of_list};
use pi_types::{Domain, Span, VarDomain};

/// How many values a span has at most that is written down.
const MOST: i128 = 1_000;

/// The domain of spans or values.
pub fn spans_of(case: &Case, words: &[String]) -> Option<Domain> {
    let mut values = Vec::new(case.alloc);
    for word in words {
        push_values(case, word.as_str(), &mut values);
    }
    match of_list(case.alloc, values.as_slice()) {
        Ok(domain) => return Some(domain),
        Err(DomFault::TooWide) => case.lacks("values of a domain"),
        Err(DomFault::Memory) => case.fail(Problem::Memory),
    }
    None
}

/// Appends the values of a span or the one value that a word is.
fn push_values(case: &Case, word: &str, values: &mut Vec<i128>) {
    let (lo, hi) = word.split_once("..").unwrap_or((word, word));
    let lo = case.integer_of(lo);
    let hi = case.integer_of(hi);
    if hi.saturating_sub(lo) > MOST {
        return case.lacks("a shorter span");
    }
    for n in lo..hi.saturating_add(1) {
        case.keep(Some(n), values);
    }
}

/// Writes the spans of a domain, each behind a blank.
pub fn tell_domain(domain: &Domain, case: &Case) {
    for span in domain.spans() {
        case.tell_character(' ');
        tell_span(span, case);
    }
}

/// Writes a span.
pub fn tell_span(span: &Span, case: &Case) {
    case.tell_integer(i128::from(span.lo));
    case.tell("..");
    case.tell_integer(i128::from(span.hi));
}

/// Writes the domains that an answer tells, each behind the number of its variable.
pub fn tell_domains(domains: &[VarDomain], case: &Case) {
    for told in domains {
        case.tell(" with ");
        case.tell_variable(told.var);
        tell_domain(&told.domain, case);
    }
}
