//! The lines of the faults of texts, without what stands in front of them and the line feed.
ghost use Rattle.std.specs.Prelude.{◌≡◌, ◌++◌, ℕ, List, IfOk, IsSomeAnd, Some, codes};
ghost use Rattle.std.specs.Fmt.{decimal};
ghost use Rattle.std.specs.String.{string_bytes};
ghost use Rattle.pi_lex.specs.Kinds.{fault_shown};
ghost use Rattle.pi_top.specs.FaultLines as spec;
ghost use Rattle.pi_top.specs.ShownFaults.{prog_line};

use pi_lex::LexFault;
use pi_prog::ProgFault;
use std::alloc::{AllocError, Global};

/// The line of the fault of a text that has no tokens.
pub fn token_line(alloc: Global, fault: LexFault) -> Result<String, AllocError>
    ensures { IfOk result (λ line. IsSomeAnd (fault_shown fault) (λ shown. string_bytes line ≡ spec.token_line shown)) }
{
    match fault {
        LexFault::TooLong => String::from_str(alloc, "TooLong"),
        LexFault::NotUtf8 { at } => line_of(alloc, "NotUtf8 at ", at as u64),
        LexFault::BadToken { line } => line_of(alloc, "BadToken line ", line),
        LexFault::WideInteger { line } => line_of(alloc, "WideInteger line ", line),
        LexFault::Memory => Err(AllocError),
    }
}

/// The line of the fault of tokens that are no program, or no goal.
pub fn part_line(alloc: Global, fault: &ProgFault) -> Result<String, AllocError>
    ensures { IfOk result (λ line. prog_line fault.now ≡ Some (string_bytes line)) }
{
    match fault {
        ProgFault::BadClause { number } => line_of(alloc, "BadClause ", *number),
        ProgFault::TooDeep { number } => line_of(alloc, "TooDeep ", *number),
        ProgFault::BadDeclaration { number } => line_of(alloc, "BadDeclaration ", *number),
        ProgFault::TooManyVariables { number } => line_of(alloc, "TooManyVariables ", *number),
        ProgFault::UnknownName {
            name,
            arity,
            number,
        } => unknown_line(alloc, name.as_str(), *arity, *number),
        ProgFault::Scattered { name, arity } => scattered_line(alloc, name.as_str(), *arity),
        ProgFault::Memory => Err(AllocError),
    }
}

/// Words, and a number behind them.
pub fn line_of(alloc: Global, words: &str, number: u64) -> Result<String, AllocError>
    ensures { IfOk result (λ line. string_bytes line ≡ words.now ++ decimal number) }
{
    let line = format!(in alloc; "{words}{number}")?;
    Ok(line)
}

fn unknown_line(alloc: Global, name: &str, arity: u32, number: u64) -> Result<String, AllocError>
    ensures { IfOk result (λ line. string_bytes line ≡
        codes "UnknownName " ++ ((name.now ++ (codes "/" ++ decimal arity)) ++ (codes " in " ++ decimal number))) }
{
    let line = format!(in alloc; "UnknownName {name}/{arity} in {number}")?;
    Ok(line)
}

fn scattered_line(alloc: Global, name: &str, arity: u32) -> Result<String, AllocError>
    ensures { IfOk result (λ line. string_bytes line ≡ codes "Scattered " ++ (name.now ++ (codes "/" ++ decimal arity))) }
{
    let line = format!(in alloc; "Scattered {name}/{arity}")?;
    Ok(line)
}

/// The whole line on a program.
pub fn of_program(alloc: Global, line: &str) -> Result<String, AllocError>
    ensures { IfOk result (λ whole. string_bytes whole ≡ spec.of_program line.now) }
{
    let whole = format!(in alloc; "program: {line}\n")?;
    Ok(whole)
}

/// The whole line on a goal.
pub fn of_goal(alloc: Global, line: &str) -> Result<String, AllocError>
    ensures { IfOk result (λ whole. string_bytes whole ≡ spec.of_goal line.now) }
{
    let whole = format!(in alloc; "goal: {line}\n")?;
    Ok(whole)
}
