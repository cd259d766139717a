//! Systems in words, a step each: `_7 1..3 5` is a variable with its domain, `_7 none` one without a value; another step is a
//! constraint, or an entry of a log. An entry is `from 0` with the number of its constraint, or `learned 2 0 1` with how many hints
//! it has and their numbers, and its literals behind that, as `_7 =< 2` or `_7 > 2`.

use pi_sat::{Lemma, Literal, SatEntry};
use pi_types::{Constraint, Domain, Places, VarDomain};
use tables_cases::{Case, Node, named, node_of, spans_of, take_constraint};

/// Domains, constraints, and entries of a log.
#[derive(Drop)]
pub(crate) struct System {
    pub(crate) domains: Vec<VarDomain>,
    pub(crate) constraints: Vec<Constraint>,
    pub(crate) entries: Vec<SatEntry>,
}

/// The directions of literals with their words: whether they are `above`.
const DIRECTIONS: [(&str, bool); 2] = [("=<", false), (">", true)];

/// Takes the steps that are left.
pub(crate) fn take_system(case: &Case) -> System {
    let mut system = System {
        domains: Vec::new(case.alloc),
        constraints: Vec::new(case.alloc),
        entries: Vec::new(case.alloc),
    };
    for _ in 0..case.steps() {
        take_step(case, &mut system);
        case.take_step_end();
    }
    system
}

/// Takes one step.
fn take_step(case: &Case, system: &mut System) {
    let word = case.take_word();
    if let Some(var) = variable_of(word) {
        let domain = take_domain(case, var);
        case.keep(domain, &mut system.domains);
        return;
    }
    match word {
        "from" => {
            let entry = take_from(case);
            case.keep(Some(entry), &mut system.entries);
        }
        "learned" => {
            let entry = take_learned(case);
            case.keep(Some(entry), &mut system.entries);
        }
        kind => {
            let constraint = take_constraint(case, kind);
            if constraint.is_none() {
                case.lacks("a known kind of constraint");
            }
            case.keep(constraint, &mut system.constraints);
        }
    }
}

/// The variable that a word is.
fn variable_of(word: &str) -> Option<u64> {
    match node_of(word) {
        Node::Var(n) => Some(n),
        _ => None,
    }
}

/// Takes the domain of a variable.
fn take_domain(case: &Case, var: u64) -> Option<VarDomain> {
    let domain = take_values(case)?;
    Some(VarDomain { var, domain })
}

fn take_values(case: &Case) -> Option<Domain> {
    if case.skip("none") {
        return spans_of(case, &[]);
    }
    let words = case.take_rest();
    spans_of(case, words)
}

/// Takes an entry from a constraint.
fn take_from(case: &Case) -> SatEntry {
    let constraint = case.take_number();
    SatEntry::FromConstraint {
        lemma: take_lemma(case),
        constraint,
    }
}

/// Takes an entry that follows from others.
fn take_learned(case: &Case) -> SatEntry {
    let mut hints = Vec::new(case.alloc);
    for _ in 0..case.take_count().min(case.left()) {
        case.keep(Some(case.take_number()), &mut hints);
    }
    SatEntry::Learned {
        lemma: take_lemma(case),
        hints: Places::from_vec(hints),
    }
}

/// Takes the literals that are left.
fn take_lemma(case: &Case) -> Lemma {
    let mut lemma = Vec::new(case.alloc);
    for _ in 0..case.left() / 3 {
        case.keep(Some(take_literal(case)), &mut lemma);
    }
    Lemma::from_vec(lemma)
}

fn take_literal(case: &Case) -> Literal {
    let var = take_variable(case);
    let above = take_direction(case);
    let bound = take_bound(case);
    Literal { var, bound, above }
}

fn take_variable(case: &Case) -> u64 {
    match variable_of(case.take_word()) {
        Some(var) => var,
        None => {
            case.lacks("a variable of a literal");
            0
        }
    }
}

fn take_direction(case: &Case) -> bool {
    match named(&DIRECTIONS, case.take_word()) {
        Some(above) => above,
        None => {
            case.lacks("the direction of a literal");
            false
        }
    }
}

fn take_bound(case: &Case) -> i64 {
    match i64::try_from(case.take_integer()) {
        Ok(bound) => bound,
        Err(_) => {
            case.lacks("a smaller bound of a literal");
            0
        }
    }
}
