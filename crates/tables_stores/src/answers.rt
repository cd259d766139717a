//! Texts of answers: `A _7 B a : 3 -2..3 5..5` is the answer of A and B in which `_3` has a domain.

use pi_print::answer_text;
use pi_types::{Answer, NamedTerm, NamedTerms, VarDomain, VarDomains};
use tables_cases::{Case, spans_of};

/// Tells the lines of an answer's text, a blank between them.
pub fn answer(case: &Case) {
    let values = take_values(case);
    let domains = take_domains(case);
    let lines = answer_text(case.alloc, &Answer { values, domains });
    if let Some(lines) = case.made(lines) {
        for (i, line) in lines.as_slice().iter().enumerate() {
            case.tell_between(i, " ");
            case.tell_escaped(line.as_str());
        }
    }
}

/// Takes names and their values, up to a colon or the end.
fn take_values(case: &Case) -> NamedTerms {
    let mut values = NamedTerms::new(case.alloc);
    for _ in 0..case.left() {
        if case.skip(":") || case.left() == 0 {
            break;
        }
        if let Some(value) = take_value(case) {
            let added = values.push(value);
            case.done(added);
        }
    }
    values
}

/// Takes a name and its value.
fn take_value(case: &Case) -> Option<NamedTerm> {
    let name = case.take_word();
    let value = case.take_term()?;
    Some(NamedTerm {
        name: case.text(name),
        value,
    })
}

/// Takes variables with their domains, a colon between them.
fn take_domains(case: &Case) -> VarDomains {
    let mut domains = VarDomains::new(case.alloc);
    for _ in 0..case.left() {
        if case.left() == 0 {
            break;
        }
        let var = case.take_number();
        let words = case.take_until(":");
        if let Some(domain) = spans_of(case, words) {
            let added = domains.push(VarDomain { var, domain });
            case.done(added);
        }
    }
    domains
}
