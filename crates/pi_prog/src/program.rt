//! Programs that tokens write.
ghost use Rattle.std.specs.Prelude.{IfOk, IfErr};
ghost use Rattle.pi_lex.specs.Kinds.{kinds};
ghost use Rattle.pi_syntax.specs.ProgramTree.{source_tree};
ghost use Rattle.pi_prog_clauses.specs.Faults.{IsProgramFault, AnswersProgram};
ghost use Rattle.pi_prog_clauses.specs.Verdict.{Verdict, a_program, HasVerdict};

use crate::reading::read_parts;
use pi_lex::Tokens;
use pi_prog_clauses::{ProgFault, judge_parts, program_of};
use pi_syntax::Program;
use std::alloc::Global;

/// The program that these tokens are, or its first fault. A User's Guide to Picat, 'Predicates and Functions'; the limits
/// and the order of faults are own.
pub fn read_program(alloc: Global, tokens: &Tokens) -> Result<Program, ProgFault>
    ensures program { IfOk result (λ program. HasVerdict (kinds tokens.now) (a_program (source_tree program))) }
    ensures fault { IfErr result (IsProgramFault (kinds tokens.now)) }
    ensures exact { (v : Verdict) → HasVerdict (kinds tokens.now) v → AnswersProgram result v }
{
    let parts = read_parts(alloc, tokens)?;
    if let Err(fault) = judge_parts(alloc, parts.as_slice()) {
        return Err(fault);
    }
    let program = program_of(alloc, parts)?;
    Ok(program)
}
