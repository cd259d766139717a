//! Programs and goals, and their first faults or what they are.

use crate::readers::tokens::tokens_of;
use pi_print::program_text;
use pi_prog::{ProgFault, read_goal, read_program};
use pi_types::{Clause, Decl, Part, Program};
use tables_cases::{Case, Problem};

/// What stands between a program and a goal that is asked of it.
const ASKED: &str = " ⊢ ";

/// Tells the first fault of the program that a line is.
pub fn tell_verdict(case: &Case, line: &str) {
    if read(case, line).is_some() {
        case.tell("sound");
    }
}

/// Tells the first fault of a goal, asked of the program that stands before it; without one, of the empty program.
pub fn tell_goal_verdict(case: &Case, line: &str) {
    let (program, goal) = line.split_once(ASKED).unwrap_or(("", line));
    if let Some(program) = read(case, program) {
        ask(case, &program, goal);
    }
}

fn ask(case: &Case, program: &Program, goal: &str) {
    if let Some(tokens) = tokens_of(case, goal) {
        match read_goal(case.alloc, &tokens, program) {
            Ok(goal) => {
                case.tell("sound");
                drop(goal);
            }
            Err(fault) => {
                tell_fault(&fault, case);
                drop(fault);
            }
        }
    }
}

/// Tells what each part of a program is, or its first fault.
pub fn tell_parts(case: &Case, line: &str) {
    if let Some(program) = read(case, line) {
        tell_kinds(program.parts.as_slice(), case);
    }
}

/// Tells a program that was read, in its canonical text.
pub fn tell_canonical(case: &Case, line: &str) {
    if let Some(program) = read(case, line) {
        tell_program(&program, case);
        drop(program);
    }
}

/// Tells the canonical text of a program, its lines one behind the other.
pub fn tell_program(program: &Program, case: &Case) {
    if let Some(text) = case.made(program_text(case.alloc, program)) {
        for (i, line) in text.as_str().lines().enumerate() {
            case.tell_between(i, " ");
            case.tell(line);
        }
    }
}

/// The program that a text is; None where it is none, and its first fault is told.
pub fn read(case: &Case, text: &str) -> Option<Program> {
    let tokens = tokens_of(case, text)?;
    match read_program(case.alloc, &tokens) {
        Ok(program) => Some(program),
        Err(fault) => {
            tell_fault(&fault, case);
            drop(fault);
            None
        }
    }
}

/// Tells what each of these parts is.
pub fn tell_kinds(parts: &[Part], case: &Case) {
    if parts.is_empty() {
        case.tell("no part");
    }
    for (i, part) in parts.iter().enumerate() {
        case.tell_between(i, " ");
        case.tell(kind(part));
    }
}

fn kind(part: &Part) -> &'static str {
    match (&part.decl, &part.clause) {
        (Decl::Import(_), _) => "import",
        (_, Some(Clause::Rule(_))) => "rule",
        (_, Some(Clause::Function(_))) => "function",
        (_, Some(Clause::Fact { .. })) => "fact",
        (_, None) => "none",
    }
}

/// Tells a fault, as the program picatq tells it.
fn tell_fault(fault: &ProgFault, case: &Case) {
    match fault {
        ProgFault::BadClause { number } => tell_numbered("BadClause ", *number, case),
        ProgFault::TooDeep { number } => tell_numbered("TooDeep ", *number, case),
        ProgFault::BadDeclaration { number } => tell_numbered("BadDeclaration ", *number, case),
        ProgFault::TooManyVariables { number } => tell_numbered("TooManyVariables ", *number, case),
        ProgFault::UnknownName {
            name,
            arity,
            number,
        } => {
            tell_named("UnknownName ", name.as_str(), *arity, case);
            tell_numbered(" in ", *number, case);
        }
        ProgFault::Scattered { name, arity } => {
            tell_named("Scattered ", name.as_str(), *arity, case);
        }
        ProgFault::Memory => case.fail(Problem::Memory),
    }
}

/// Tells what a part is, and its number.
fn tell_numbered(what: &str, number: u64, case: &Case) {
    case.tell(what);
    case.tell_number(number);
}

/// Tells what a name is, the name and the number of its arguments.
fn tell_named(what: &str, name: &str, arity: u32, case: &Case) {
    case.tell(what);
    case.tell(name);
    tell_numbered("/", u64::from(arity), case);
}
