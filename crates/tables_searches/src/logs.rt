//! Whether a log is right over a system.

use crate::systems::{System, take_system};
use pi_sat::{SatLog, check, may_search};
use pi_types::{Constraints, VarDomains};
use tables_cases::{Case, Problem};

/// Tells whether the entries are a right log.
pub(crate) fn answer(case: &Case) {
    let System {
        domains,
        constraints,
        entries,
    } = take_system(case);
    let domains = VarDomains::from_vec(domains);
    let constraints = Constraints::from_vec(constraints);
    tell_check(case, &domains, &constraints, &SatLog::from_vec(entries));
}

/// Tells whether a log is right, or that none may be checked over these domains and constraints.
pub(crate) fn tell_check(
    case: &Case,
    domains: &VarDomains,
    constraints: &Constraints,
    log: &SatLog,
) {
    match may_search(case.alloc, domains, constraints) {
        Err(_) => case.fail(Problem::Memory),
        Ok(false) => case.tell("not to be checked"),
        Ok(true) => match check(case.alloc, domains, constraints, log) {
            Err(_) => case.fail(Problem::Memory),
            Ok(right) => case.tell(if right { "right" } else { "wrong" }),
        },
    }
}
