//! What a search over a system ends in. The first word of a case is `values` where a solution is told with its values, and
//! `whether` where it isn't. Told is the answer, whether it is told again, and of a log that ends in `no` whether it is right.

use crate::logs::tell_check;
use crate::systems::{System, take_system};
use pi_sat::{Assignment, SatSearch, SatStep, SearchFault};
use pi_types::{Constraints, VarDomains};
use tables_cases::{Case, Problem};

/// Tells what a search ends in.
pub(crate) fn answer(case: &Case) {
    let values = case.take_word() == "values";
    case.take_step_end();
    let System {
        domains,
        constraints,
        entries: _,
    } = take_system(case);
    let domains = VarDomains::from_vec(domains);
    let constraints = Constraints::from_vec(constraints);
    match SatSearch::new(case.alloc, &domains, &constraints) {
        Ok(search) => tell_search(case, &domains, &constraints, search, values),
        Err(fault) => tell_fault(case, fault),
    }
}

/// Tells why there is no search.
fn tell_fault(case: &Case, fault: SearchFault) {
    match fault {
        SearchFault::Limits => case.tell("limits"),
        SearchFault::TwoDomains => case.tell("two domains"),
        SearchFault::Memory => case.fail(Problem::Memory),
    }
}

/// Tells the answer, the answer again, and whether a log that ends so is right.
fn tell_search(
    case: &Case,
    domains: &VarDomains,
    constraints: &Constraints,
    mut search: SatSearch,
    values: bool,
) {
    let solved = tell_end(case, &mut search, values);
    case.tell(", ");
    tell_end(case, &mut search, values);
    if !solved {
        case.tell(", ");
        tell_check(case, domains, constraints, search.log());
    }
}

/// Goes on to the answer and tells it; whether it is a solution.
fn tell_end(case: &Case, search: &mut SatSearch, values: bool) -> bool {
    for _ in 0..usize::MAX {
        match search.next() {
            SatStep::Learned => {}
            SatStep::Yes(solution) => {
                tell_solution(case, &solution, values);
                return true;
            }
            SatStep::No => {
                case.tell("no");
                return false;
            }
            SatStep::Memory => {
                case.fail(Problem::Memory);
                return false;
            }
        }
    }
    false
}

/// Tells a solution.
fn tell_solution(case: &Case, solution: &Assignment, values: bool) {
    case.tell("yes");
    if values {
        for (_, value) in solution.as_slice() {
            case.tell(" ");
            case.tell_integer(i128::from(*value));
        }
    }
}
