//! The prelude as a program.
ghost use Rattle.std.specs.Prelude.{◌≡◌, IfOk};
ghost use Rattle.pi_lex.specs.declared.fault.LexFault.TheVariants.{Memory};
ghost use Rattle.pi_syntax.specs.Prelude.{prelude_text};
ghost use Rattle.pi_meaning.specs.OverNames.Prelude.{prelude};
ghost use Rattle.pi_syntax.specs.ProgramTree.{source_tree};
ghost use Rattle.pi_syntax.specs.Tokens.{HasTokens};

use crate::reading::read_parts;
use pi_lex::{LexFault, Tokens, tokens};
use pi_prog_clauses::program_of;
use pi_syntax::{Program, prelude};
use std::alloc::{AllocError, Global};

/// The prelude's program, read from its text as the parts of any program are (own). `Err` is want of memory.
pub fn read_prelude(alloc: Global) -> Result<Program, AllocError>
    ensures { IfOk result (λ program. source_tree program ≡ prelude) }
{
    let tokens = prelude_tokens(alloc)?;
    let parts = read_parts(alloc, &tokens)?;
    let program = program_of(alloc, parts)?;
    Ok(program)
}

/// The tokens of the prelude's text, which has no fault.
fn prelude_tokens(alloc: Global) -> Result<Tokens, AllocError>
    ensures { IfOk result (HasTokens prelude_text) }
{
    match tokens(alloc, prelude().as_bytes()) {
        Ok(tokens) => Ok(tokens),
        Err(fault) => Err(want_of_memory(fault)),
    }
}

/// What a fault is that can only be want of memory.
fn want_of_memory(fault: LexFault) -> AllocError
    requires { fault ≡ Memory }
{
    match fault {
        LexFault::Memory => AllocError,
        _ => unreachable!(),
    }
}
