//! What a program's text comes to before any goal is asked of it, and a goal's text that is asked of it then.
ghost use Rattle.std.specs.Prelude.{IfOk};
ghost use Rattle.pi_core.specs.CoreTree.{program_tree};
ghost use Rattle.pi_syntax.specs.ProgramTree.{source_tree};
ghost use Rattle.pi_top.specs.AskingCode.{MayBeAsked, ShowsProgramJudged, ShowsGoalJudged};

use crate::fault_lines::{line_of, of_goal, of_program};
use crate::judgement::{Refusal, goal_of, program_of};
use pi_core::{CoreProgram, CoreQuery};
use pi_rewrite::{LowerFault, lower, lower_goal};
use pi_syntax::Program;
use std::alloc::{AllocError, Global};

/// A program and what it is lowered to, or the line that says why no goal is asked of it.
#[derive(Drop)]
pub enum ProgramJudged {
    Ready { program: Program, core: CoreProgram },
    Refused(String),
}

/// A goal that is asked of a core program, or the line that says why it isn't.
#[derive(Drop)]
pub enum GoalJudged {
    Asks(CoreQuery),
    Refused(String),
}

/// What a program's text comes to before any goal is asked of it.
pub fn judge_program(alloc: Global, text: Vec<u8>) -> Result<ProgramJudged, AllocError>
    ensures { IfOk result (ShowsProgramJudged text.items) }
{
    let program = match program_of(alloc, text) {
        Ok(program) => program,
        Err(Refusal::Line(line)) => {
            return Ok(ProgramJudged::Refused(of_program(alloc, line.as_str())?));
        }
        Err(Refusal::Memory) => return Err(AllocError),
    };
    match lower(alloc, &program) {
        Ok(core) => Ok(ProgramJudged::Ready { program, core }),
        Err(LowerFault::NotBuilt { number }) => {
            let line = line_of(alloc, "NotBuilt ", number)?;
            Ok(ProgramJudged::Refused(of_program(alloc, line.as_str())?))
        }
        Err(LowerFault::Memory) => Err(AllocError),
    }
}

/// What a goal's text comes to that is asked of a program, which was lowered.
pub fn judge_goal(
    alloc: Global,
    text: &[u8],
    program: &Program,
    core: &CoreProgram,
) -> Result<GoalJudged, AllocError>
    ensures { IfOk result (λ judged. MayBeAsked (source_tree program.now) (program_tree core.now) →
        ShowsGoalJudged (source_tree program.now) (program_tree core.now) text.now judged) }
{
    let goal = match goal_of(alloc, text, program) {
        Ok(goal) => goal,
        Err(Refusal::Line(line)) => {
            return Ok(GoalJudged::Refused(of_goal(alloc, line.as_str())?));
        }
        Err(Refusal::Memory) => return Err(AllocError),
    };
    match lower_goal(alloc, &goal, core) {
        Ok(query) => Ok(GoalJudged::Asks(query)),
        Err(LowerFault::NotBuilt { number }) => {
            let line = line_of(alloc, "NotBuilt ", number)?;
            Ok(GoalJudged::Refused(of_goal(alloc, line.as_str())?))
        }
        Err(LowerFault::Memory) => Err(AllocError),
    }
}
