//! The mode `print`: the canonical text of a program.
ghost use Rattle.std.specs.Prelude.{◌≡◌, ◌<◌, [], List, IfOk};
ghost use Rattle.pi_outside.specs.Writes.{ByWrites};
ghost use Rattle.pi_core.specs.declared.log.LogEntry.{LogEntry};
ghost use Rattle.pi_top.specs.Ends.{AnswersPrinted};
ghost use Rattle.pi_top.specs.Faults.{TellsWrites};
ghost use Rattle.pi_top.specs.PrintedCode.{ShowsPrinted};
ghost use Rattle.pi_top.specs.declared.runs.QueryRun.{QueryRun};

use crate::fault_lines::of_program;
use crate::judgement::{Refusal, program_of};
use crate::query::{Stop, ended};
use pi_outside::Sink;
use pi_print_program::program_text;
use pi_terms::Text;
use std::alloc::{AllocError, Global};

/// What a program's text is printed as, or the line that says why it is no program.
#[derive(Drop)]
pub(crate) enum Printed {
    Canonical(Text),
    Refused(String),
}

/// Writes the canonical text of the program that a text is, or the line of the text's fault.
pub(crate) fn print_text<O: Sink>(alloc: Global, text: Vec<u8>, out: &mut O) -> Result<u8, Stop>
    ensures writes { TellsWrites (O.faults out.old) (O.faults out.new) result }
    ensures no_read { IfOk result (λ status. status < 7) }
    ensures answers { ByWrites O.wrote O.taken out.old out.new (λ writes. (queries : List QueryRun) → queries ≡ [] →
        AnswersPrinted text.items queries result writes) }
{
    let printed = canonical_of(alloc, text)?;
    match printed {
        Printed::Canonical(whole) => ended(out, whole.as_str(), 0),
        Printed::Refused(line) => ended(out, line.as_str(), 3),
    }
}

/// What a program's text is printed as.
fn canonical_of(alloc: Global, text: Vec<u8>) -> Result<Printed, AllocError>
    ensures { IfOk result (ShowsPrinted text.items) }
{
    let program = match program_of(alloc, text) {
        Ok(program) => program,
        Err(Refusal::Line(line)) => return Ok(Printed::Refused(of_program(alloc, line.as_str())?)),
        Err(Refusal::Memory) => return Err(AllocError),
    };
    let whole = program_text(alloc, &program)?;
    Ok(Printed::Canonical(whole))
}
