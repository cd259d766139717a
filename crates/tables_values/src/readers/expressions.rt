//! Texts, and the expressions that their tokens are.

use crate::readers::programs::tell_program;
use crate::readers::tokens::tokens_of;
use pi_expr::{ExpFault, read_exp};
use pi_types::{Clause, Decl, Exp, Part, Parts, Program};
use std::alloc::{AllocError, Global};
use tables_cases::{Case, Problem};

/// Tells the expression that the tokens of a line are, as the fact whose head it is.
pub fn tell_canonical(case: &Case, line: &str) {
    if let Some(exp) = read(case, line)
        && let Some(program) = case.made(fact(case.alloc, exp))
    {
        tell_program(&program, case);
        drop(program);
    }
}

/// The program of one fact.
fn fact(alloc: Global, head: Exp) -> Result<Program, AllocError> {
    let head = Box::new(alloc, head)?;
    let mut parts = Parts::new(alloc);
    parts.push(Part {
        decl: Decl::Plain,
        clause: Some(Clause::Fact { head }),
    })?;
    Ok(Program { parts })
}

/// Tells whether the tokens of a line, whose tree may be large, are an expression.
pub fn tell_whether_read(case: &Case, line: &str) {
    if let Some(exp) = read(case, line) {
        case.tell("read");
        drop(exp);
    }
}

/// The expression that all tokens of a line are; None where there is none, and the fault is told.
fn read(case: &Case, line: &str) -> Option<Exp> {
    let tokens = tokens_of(case, line)?;
    match read_exp(case.alloc, &tokens, 0, tokens.len()) {
        Ok(exp) => return Some(exp),
        Err(ExpFault::NoExpression) => case.tell("none"),
        Err(ExpFault::TooDeep) => case.tell("too deep"),
        Err(ExpFault::Memory) => case.fail(Problem::Memory),
    }
    None
}
