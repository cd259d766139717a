//! What a program's text and a goal's come to.
ghost use Rattle.std.specs.Prelude.{◌≡◌, ℕ, List, IfOk, IfErr};
ghost use Rattle.pi_syntax.specs.ProgramTree.{source_tree, goal_source};
ghost use Rattle.pi_top.specs.Judged.{IsProgramText, IsGoalText, AreFaultless};
ghost use Rattle.pi_top.specs.JudgedCode.{ShowsJudged, ShowsProgramLine, ShowsGoalLine};
ghost use Rattle.pi_top.specs.declared.judgement.Refusal.TheVariants.{Memory};

use crate::fault_lines::{line_of, of_goal, of_program, part_line, token_line};
use pi_core::{CoreProgram, CoreQuery};
use pi_lex::tokens;
use pi_prog::{read_goal, read_program};
use pi_rewrite::{LowerFault, lower, lower_goal};
use pi_syntax::{Goal, Program};
use std::alloc::{AllocError, Global};

/// A goal that is asked of a program, both in the core language, or the line that says why none is.
#[derive(Drop)]
pub enum Judged {
    Asks { core: CoreProgram, query: CoreQuery },
    Refused(String),
}

/// Why a text isn't read: the line of its fault, or want of memory.
#[derive(Drop)]
pub enum Refusal {
    Line(String),
    Memory,
}

impl From<AllocError> for Refusal {
    ghost from_gives = { λ _ e. e ≡ Memory };

    fn from(_e: AllocError) -> Refusal {
        Refusal::Memory
    }
}

/// What a program's text and a goal's come to.
pub fn judge(alloc: Global, text: Vec<u8>, goal: &[u8]) -> Result<Judged, AllocError>
    ensures { IfOk result (ShowsJudged text.items goal.now) }
{
    let program = match program_of(alloc, text) {
        Ok(program) => program,
        Err(Refusal::Line(line)) => return Ok(Judged::Refused(of_program(alloc, line.as_str())?)),
        Err(Refusal::Memory) => return Err(AllocError),
    };
    let goal = match goal_of(alloc, goal, &program) {
        Ok(goal) => goal,
        Err(Refusal::Line(line)) => return Ok(Judged::Refused(of_goal(alloc, line.as_str())?)),
        Err(Refusal::Memory) => return Err(AllocError),
    };
    let judged = lowered(alloc, &program, &goal)?;
    Ok(judged)
}

/// What a program and a goal without a fault come to: the line on the first part of them that isn't built, or both in the
/// core language.
fn lowered(alloc: Global, program: &Program, goal: &Goal) -> Result<Judged, AllocError>
    ensures { IfOk result (λ judged. (text of_goal : List ℕ) →
        AreFaultless text of_goal (source_tree program.now) (goal_source goal.now) → ShowsJudged text of_goal judged) }
{
    let core = match lower(alloc, program) {
        Ok(core) => core,
        Err(LowerFault::NotBuilt { number }) => {
            let line = line_of(alloc, "NotBuilt ", number)?;
            return Ok(Judged::Refused(of_program(alloc, line.as_str())?));
        }
        Err(LowerFault::Memory) => return Err(AllocError),
    };
    match lower_goal(alloc, goal, &core) {
        Ok(query) => Ok(Judged::Asks { core, query }),
        Err(LowerFault::NotBuilt { number }) => {
            let line = line_of(alloc, "NotBuilt ", number)?;
            Ok(Judged::Refused(of_goal(alloc, line.as_str())?))
        }
        Err(LowerFault::Memory) => Err(AllocError),
    }
}

/// The program that a text is. The text goes as soon as its tokens are there.
pub fn program_of(alloc: Global, text: Vec<u8>) -> Result<Program, Refusal>
    ensures program { IfOk result (λ program. IsProgramText text.items (source_tree program)) }
    ensures line { IfErr result (ShowsProgramLine text.items) }
{
    let found = tokens(alloc, text.as_slice());
    drop(text);
    let tokens = match found {
        Ok(tokens) => tokens,
        Err(fault) => return Err(Refusal::Line(token_line(alloc, fault)?)),
    };
    match read_program(alloc, &tokens) {
        Ok(program) => Ok(program),
        Err(fault) => Err(Refusal::Line(part_line(alloc, &fault)?)),
    }
}

/// The goal that a text is, asked of a program.
pub fn goal_of(alloc: Global, text: &[u8], program: &Program) -> Result<Goal, Refusal>
    ensures goal { IfOk result (λ goal. IsGoalText text.now (source_tree program.now) (goal_source goal)) }
    ensures line { IfErr result (ShowsGoalLine text.now (source_tree program.now)) }
{
    let tokens = match tokens(alloc, text) {
        Ok(tokens) => tokens,
        Err(fault) => return Err(Refusal::Line(token_line(alloc, fault)?)),
    };
    match read_goal(alloc, &tokens, program) {
        Ok(goal) => Ok(goal),
        Err(fault) => Err(Refusal::Line(part_line(alloc, &fault)?)),
    }
}
