//! Planners: for what they ask, state by state, and what they answer. `cost plan a 5; a to b go 2; b final` asks for a plan from
//! `a` within 5: `cost` or `rests`, `plan` or `best_plan`, the start and the limit, and then the graph, an entry a step.
ghost use Rattle.std.specs.Prelude.{◌≡◌, true, false, None, IsSome};
ghost use Rattle.pi_plan.specs.Planner.{IsSound, waits_for};

use crate::graph::{Entry, take_graph, text_of};
use pi_plan::{PlanFault, PlanStep, Planner};
use pi_types::Term;
use tables_cases::{Case, Problem};

/// How many states are asked for at most.
const MOST: usize = 100_000;

/// Tells for which states a planner asks, with what is left of the limit at each; what it comes to, twice, since an end is
/// answered again; and how many states it was given.
pub fn answer(case: &Case) {
    let by_rest = take_choice(case, "rests", "cost");
    let best = take_choice(case, "best_plan", "plan");
    let start = case.take_term();
    let limit = case.take_integer();
    let graph = take_graph(case, by_rest);
    if let Some(start) = start {
        begin(case, start, limit, best, by_rest, graph.as_slice());
    }
}

/// Takes one of two words, and tells whether it is the first.
fn take_choice(case: &Case, first: &str, second: &str) -> bool {
    let is_first = case.skip(first);
    if !is_first {
        case.expect(second);
    }
    is_first
}

/// Makes the planner of a call and follows it, or tells why it isn't made. This function alone owns a planner.
fn begin(case: &Case, start: Term, limit: i128, best: bool, by_rest: bool, graph: &[Entry]) {
    match Planner::new(case.alloc, start, limit, best, by_rest) {
        Ok(mut planner) => follow(case, &mut planner, graph),
        Err(fault) => tell_fault(case, &fault),
    }
}

/// Follows a planner to its end, and tells how much it was given.
fn follow(case: &Case, planner: &mut Planner, graph: &[Entry])
    requires sound { IsSound planner.old }
    requires idle { waits_for planner.old ≡ None }
{
    take_steps(case, planner, graph);
    case.tell("; ");
    case.tell_count(planner.given().len());
    case.tell(" given");
}

/// Takes the steps of a planner up to its end.
fn take_steps(case: &Case, planner: &mut Planner, graph: &[Entry])
    requires sound { IsSound planner.old }
    requires idle { waits_for planner.old ≡ None }
{
    for _ in 0..MOST {
        if !take_step(case, planner, graph) {
            return;
        }
    }
    case.lacks("fewer states");
}

/// Takes a step of a planner, and tells whether it was given what it asks for.
fn take_step(case: &Case, planner: &mut Planner, graph: &[Entry]) -> bool
    requires sound { IsSound planner.old }
    requires idle { waits_for planner.old ≡ None }
    ensures sound { result ≡ true → IsSound planner.new }
    ensures idle { result ≡ true → waits_for planner.new ≡ None }
{
    match planner.next() {
        PlanStep::Expand(state, rest) => give(case, planner, graph, &state, rest),
        end => {
            tell_end(case, &end);
            let again = planner.next();
            tell_end(case, &again);
            drop(again);
            drop(end);
            false
        }
    }
}

/// Gives a planner the state that it asks for, and tells whether it takes an entry for it.
fn give(case: &Case, planner: &mut Planner, graph: &[Entry], state: &Term, rest: i128) -> bool
    requires sound { IsSound planner.old }
    requires asked { IsSome (waits_for planner.old) }
    ensures sound { result ≡ true → IsSound planner.new }
    ensures idle { result ≡ true → waits_for planner.new ≡ None }
{
    match text_of(case, state) {
        Some(state) => {
            tell_asked(case, state.as_str(), rest);
            give_first(case, planner, graph, state.as_str(), rest)
        }
        None => false,
    }
}

/// Gives a planner the first entry that stands for the state that it asks for and that it doesn't refuse. Tells whether there is one.
fn give_first(case: &Case, planner: &mut Planner, graph: &[Entry], state: &str, rest: i128) -> bool
    requires sound { IsSound planner.old }
    requires asked { IsSome (waits_for planner.old) }
    ensures sound { result ≡ true → IsSound planner.new }
    ensures idle { result ≡ true → waits_for planner.new ≡ None }
{
    for entry in graph {
        if give_entry(case, planner, entry, state, rest) {
            return true;
        }
    }
    case.lacks("an entry for each state that is asked for");
    false
}

/// Gives a planner an entry, where it stands for the state that it asks for. Tells whether the planner took it.
fn give_entry(case: &Case, planner: &mut Planner, entry: &Entry, state: &str, rest: i128) -> bool
    requires sound { IsSound planner.old }
    requires asked { IsSome (waits_for planner.old) }
    ensures sound { result ≡ true → IsSound planner.new }
    ensures idle { result ≡ true → waits_for planner.new ≡ None }
    ensures refused { result ≡ false → planner.new ≡ planner.old }
{
    if !entry.stands_for(state, rest) {
        return false;
    }
    match planner.give(entry.is_final, &entry.successors) {
        Ok(()) => true,
        Err(fault) => {
            tell_fault(case, &fault);
            false
        }
    }
}

/// Tells a state that is asked for, and what is left there.
fn tell_asked(case: &Case, state: &str, rest: i128) {
    case.begin("; ");
    case.tell(state);
    case.tell(" ");
    case.tell_integer(rest);
}

/// Tells an end.
fn tell_end(case: &Case, end: &PlanStep) {
    case.begin("; ");
    match end {
        PlanStep::Expand(_, _) => case.lacks("an end"),
        PlanStep::Found { plan, cost } => {
            tell_term(case, "found ", plan);
            case.tell(" ");
            case.tell_integer(*cost);
        }
        PlanStep::NoPlan => case.tell("no plan"),
        PlanStep::Memory => case.fail(Problem::Memory),
    }
}

/// Tells why something is refused.
fn tell_fault(case: &Case, fault: &PlanFault) {
    case.begin("; ");
    match fault {
        PlanFault::NotGround(term) => tell_term(case, "not ground ", term),
        PlanFault::BadCost(term) => tell_term(case, "bad cost ", term),
        PlanFault::Memory => case.fail(Problem::Memory),
    }
}

/// Tells what a term is, and its text.
fn tell_term(case: &Case, what: &str, term: &Term) {
    case.tell(what);
    if let Some(text) = text_of(case, term) {
        case.tell(text.as_str());
    }
}
