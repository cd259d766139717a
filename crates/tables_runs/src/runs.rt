//! Runs of goals: `20 steps 2 names : GOAL` runs a goal whose first two slots are named, for at most 20 Ticks. What comes
//! is told with the Ticks that are counted by then. `kept` before the colon asks what the machine keeps at an end too.

use crate::goals::goal_of;
use crate::programs::program_of;
use pi_constraints::KeptStates;
use pi_engine::{Budget, Happening, Kept, Machine, Mode};
use pi_region::Words;
use pi_store::RawStore;
use pi_types::{Answer, CorePreds, CoreProgram, CoreQuery, NameSlot, NameSlots, Work};
use tables_cases::{Case, Problem, tell_domains};

/// How many slots each query has.
const SLOTS: u32 = 5;

/// How many happenings a run is asked for at most.
const MOST: usize = 1_000;

/// Tells what comes in the run of a goal, under the rules that its file gives.
pub fn answer(case: &Case, text: &str) {
    let mut budget = Budget {
        ticks: 0,
        steps: case.take_number(),
        work: Work::NONE,
        limit: 0,
    };
    case.expect("steps");
    let count = case.take_slot();
    case.expect("names");
    let tells_kept = case.skip("kept");
    case.expect(":");
    if let Some(query) = take_query(case, count) {
        let core = program_of(case, text);
        let store = RawStore::new(case.alloc, Words::new(case.alloc));
        run(case, &core, query, store, &mut budget, tells_kept);
    }
}

/// Takes the goal of a query whose first so many slots are named.
fn take_query(case: &Case, count: u32) -> Option<CoreQuery> {
    let goal = goal_of(case, case.take_rest())?;
    Some(CoreQuery {
        goal,
        helpers: CorePreds::new(case.alloc),
        names: names(case, count),
        slots: SLOTS,
    })
}

/// Names for the first so many slots.
fn names(case: &Case, count: u32) -> NameSlots {
    let mut names = NameSlots::new(case.alloc);
    for slot in 0..count {
        let name = format!(in case.alloc; "V{slot}");
        if let Some(name) = case.made(name) {
            let name = case.text(name.as_str());
            let added = names.push(NameSlot { name, slot });
            case.done(added);
        }
    }
    names
}

/// Runs a query on any store. This function alone owns a machine: it is generic, so that no proof goes through the parts of one
/// kind of store.
fn run<S: KeptStates>(
    case: &Case,
    core: &CoreProgram,
    query: CoreQuery,
    store: S,
    budget: &mut Budget,
    tells_kept: bool,
) {
    match Machine::new(case.alloc, core, query, store, Mode::Top) {
        Ok(mut machine) => {
            tell_all(case, &mut machine, budget, tells_kept);
            drop(machine.into_store());
        }
        Err(store) => {
            drop(store);
            case.fail(Problem::Memory);
        }
    }
}

/// Tells all that comes in a run up to its end. Where the end doesn't come for good, so it says.
fn tell_all<S: KeptStates>(
    case: &Case,
    machine: &mut Machine<'_, S>,
    budget: &mut Budget,
    tells_kept: bool,
) {
    for _ in 0..MOST {
        let from = case.told();
        if tell_next(case, machine, budget, tells_kept) {
            let again = Case::wordless(case.alloc);
            tell_next(&again, machine, budget, tells_kept);
            return case.tell_change(from, &again);
        }
        case.tell(" ; ");
    }
    case.tell("and so on");
}

/// Tells what comes next and the Ticks by then, and answers whether it is an end.
fn tell_next<S: KeptStates>(
    case: &Case,
    machine: &mut Machine<'_, S>,
    budget: &mut Budget,
    tells_kept: bool,
) -> bool {
    let happening = machine.next(budget);
    case.tell_number(budget.ticks);
    case.tell(": ");
    let is_end = tell_happening(&happening, case);
    drop(happening);
    if is_end && tells_kept {
        tell_kept(machine.kept(), case);
    }
    is_end
}

/// Tells what came, and answers whether it is an end.
fn tell_happening(happening: &Happening, case: &Case) -> bool {
    match happening {
        Happening::Answer(answer) => {
            tell_answer(answer, case);
            return false;
        }
        Happening::Out(text) => {
            tell_written(text.as_str(), case);
            return false;
        }
        Happening::Raised(ball) => {
            case.tell("raised ");
            case.tell_term(ball);
        }
        Happening::Done => case.tell("done"),
        Happening::StepsSpent => case.tell("steps spent"),
        Happening::WorkSpent => case.tell("work spent"),
        Happening::Memory => case.tell("want of memory"),
        Happening::NeedPlan(_) => case.tell("a planner"),
    }
    true
}

/// Tells a text that is written, on one line.
fn tell_written(text: &str, case: &Case) {
    case.tell("writes ");
    for c in text.chars() {
        if c == '\n' {
            case.tell("\\n");
        } else {
            case.tell_character(c);
        }
    }
}

/// Tells what a machine keeps beside its store.
fn tell_kept(kept: Kept, case: &Case) {
    case.tell(", keeping ");
    case.tell_count(kept.entries);
    case.tell(" entries, ");
    case.tell_count(kept.frames);
    case.tell(" frames, ");
    case.tell_count(kept.slots);
    case.tell(" slots, ");
    case.tell_count(kept.collected);
    case.tell(" values");
}

/// Tells the values of an answer and the domains that it tells.
fn tell_answer(answer: &Answer, case: &Case) {
    let values = answer.values.as_slice();
    if values.is_empty() {
        case.tell("yes");
    }
    for (i, named) in values.iter().enumerate() {
        case.tell_between(i, ", ");
        case.tell_term(&named.value);
    }
    tell_domains(answer.domains.as_slice(), case);
}
