//! Domains: how they are made, cut, met and read, step by step.

use pi_dom::{
    DomFault, Domain, Span, contains, cut_above, cut_below, max, meet, min, of_list, of_span,
    remove, size,
};
use tables_cases::{Case, Problem, named, tell_span};

/// How many values a progression can have.
const MOST: usize = 1_000_000;

/// How many spans are told one by one.
const TOLD: usize = 8;

/// How a step cuts a domain.
#[derive(Clone, Copy)]
enum Cut {
    From,
    Upto,
    Without,
    Meet,
}

/// Each cut with its word.
const CUTS: [(&str, Cut); 4] = [
    ("from", Cut::From),
    ("upto", Cut::Upto),
    ("without", Cut::Without),
    ("meet", Cut::Meet),
];

/// What is asked of a domain.
#[derive(Clone, Copy)]
enum Question {
    Size,
    Min,
    Max,
    Has,
    Is,
}

/// Each question with its word.
const QUESTIONS: [(&str, Question); 5] = [
    ("size", Question::Size),
    ("min", Question::Min),
    ("max", Question::Max),
    ("has", Question::Has),
    ("is", Question::Is),
];

/// The cut with a word.
fn cut_of(word: &str) -> Option<Cut> {
    named(&CUTS, word)
}

/// The question with a word.
fn question_of(word: &str) -> Option<Question> {
    named(&QUESTIONS, word)
}

/// Tells what each step of a case gives. A step is made of the domain that the last one left.
pub fn answer(case: &Case) {
    let nothing = of_list(case.alloc, &[]);
    let Some(mut domain) = made(case, nothing) else {
        return;
    };
    for _ in 0..case.steps() {
        case.begin("; ");
        take_step(case, &mut domain);
        case.take_step_end();
    }
}

/// A domain that was made; None where it is too wide, which is told, or memory was wanted.
fn made(case: &Case, made: Result<Domain, DomFault>) -> Option<Domain> {
    match made {
        Ok(domain) => return Some(domain),
        Err(DomFault::TooWide) => case.tell("too wide"),
        Err(DomFault::Memory) => case.fail(Problem::Memory),
    }
    None
}

/// Takes a step: a domain in the place of the last one, told by its spans, or a question.
fn take_step(case: &Case, domain: &mut Domain) {
    let word = case.take_word();
    if answer_question(case, domain, word) {
        return;
    }
    if let Some(made) = next_domain(case, domain, word) {
        tell_spans(made.spans(), case);
        *domain = made;
    }
}

/// The domain that a step makes.
fn next_domain(case: &Case, domain: &Domain, word: &str) -> Option<Domain> {
    match cut_of(word) {
        Some(cut) => cut_domain(case, domain, cut),
        None => domain_of(case, word),
    }
}

/// What is left of a domain that is cut.
fn cut_domain(case: &Case, domain: &Domain, cut: Cut) -> Option<Domain> {
    let alloc = case.alloc;
    let left = match cut {
        Cut::From => cut_below(alloc, domain, case.take_integer()),
        Cut::Upto => cut_above(alloc, domain, case.take_integer()),
        Cut::Without => remove(alloc, domain, case.take_integer()),
        Cut::Meet => {
            let other = take_domain(case)?;
            meet(alloc, domain, &other)
        }
    };
    case.made(left)
}

/// Takes a domain, which begins with the word for how it is made.
fn take_domain(case: &Case) -> Option<Domain> {
    let word = case.take_word();
    domain_of(case, word)
}

/// The domain from one integer to another, or of a list of values.
fn domain_of(case: &Case, word: &str) -> Option<Domain> {
    let domain = match word {
        "span" => {
            let lo = case.take_integer();
            of_span(case.alloc, lo, case.take_integer())
        }
        "list" => {
            let values = take_values(case);
            of_list(case.alloc, values.as_slice())
        }
        _ => {
            case.lacks("a known step");
            return None;
        }
    };
    made(case, domain)
}

/// The values that are left. `0:8:2` are 0, 2, 4, 6 and 8.
fn take_values(case: &Case) -> Vec<i128> {
    let mut values = Vec::new(case.alloc);
    for word in case.take_rest() {
        push_progression(case, word.as_str(), &mut values);
    }
    values
}

/// Appends a value, or the values from the first number of a word up to its second, by steps of its third.
fn push_progression(case: &Case, word: &str, values: &mut Vec<i128>) {
    let (first, behind) = word.split_once(':').unwrap_or((word, word));
    let (last, step) = behind.split_once(':').unwrap_or((behind, "1"));
    let mut value = case.integer_of(first);
    let last = case.integer_of(last);
    let step = case.integer_of(step);
    for _ in 0..MOST {
        if value > last {
            return;
        }
        case.keep(Some(value), values);
        value = value.saturating_add(step);
    }
    case.lacks("fewer values");
}

/// Answers a question about a domain, and tells whether the word begins one.
fn answer_question(case: &Case, domain: &Domain, word: &str) -> bool {
    let question = question_of(word);
    if let Some(question) = question {
        tell_asked(case, domain, question);
    }
    question.is_some()
}

/// Tells what is asked of a domain.
fn tell_asked(case: &Case, domain: &Domain, question: Question) {
    match question {
        Question::Size => case.tell_number(size(domain)),
        Question::Min => tell_end(min(domain), case),
        Question::Max => tell_end(max(domain), case),
        Question::Has => {
            let n = case.take_integer();
            case.tell_whether(contains(domain, n));
        }
        Question::Is => tell_whether_same(case, domain),
    }
}

/// Takes another domain, and tells whether it is this one.
fn tell_whether_same(case: &Case, domain: &Domain) {
    if let Some(other) = take_domain(case) {
        case.tell_whether(domain.spans() == other.spans());
    }
}

/// Tells spans: each, or where they are many, how many they are and the first and the last one.
fn tell_spans(spans: &[Span], case: &Case) {
    match spans {
        [] => case.tell("empty"),
        [first, .., last] if spans.len() > TOLD => {
            case.tell_count(spans.len());
            case.tell(" spans from ");
            tell_span(first, case);
            case.tell(" to ");
            tell_span(last, case);
        }
        _ => {
            for (i, span) in spans.iter().enumerate() {
                case.tell_between(i, " ");
                tell_span(span, case);
            }
        }
    }
}

fn tell_end(end: Option<i64>, case: &Case) {
    match end {
        Some(value) => case.tell_integer(i128::from(value)),
        None => case.tell("none"),
    }
}
