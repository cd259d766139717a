//! A session whose program is in a file.
ghost use Rattle.std.specs.Prelude.{◌≡◌, ◌<◌, ◌⊎◌, [], IfOk};
ghost use Rattle.pi_outside.specs.Faults.{Rose};
ghost use Rattle.pi_outside.specs.Given.{IsSpent};
ghost use Rattle.pi_outside.specs.Inputs.{ByInput};
ghost use Rattle.pi_outside.specs.Reads.{ByReads};
ghost use Rattle.pi_outside.specs.Writes.{ByWrites};
ghost use Rattle.pi_top.specs.Faults.{TellsWrites, counted};
ghost use Rattle.pi_top.specs.Runs.{AllWithin};
ghost use Rattle.pi_top.specs.SessionEnds.{AnswersSessionText, AnswersSessionFile};
ghost use Rattle.pi_top.specs.Told.{files_read, input_read, lists};
ghost use Rattle.pi_top.specs.Took.{bounds_asked};

use crate::asking::{ProgramJudged, judge_program};
use crate::files::{FileStop, read_file};
use crate::handed::READ_FAULT;
use crate::manner::Manner;
use crate::query::{Stop, ended};
use crate::runs::Queries;
use crate::session::Session;
use pi_outside::{Files, Sink, Source};
use pi_top_words::Options;
use std::alloc::Global;

/// Serves the lines of an input, asked of the program in a file. So many bytes of the input are read at most.
pub fn session_of_file<F: Files, I: Source, O: Sink>(
    alloc: Global,
    asked: &Options,
    files: &mut F,
    input: &mut I,
    most: u64,
    out: &mut O,
    queries: &mut Queries,
) -> Result<u8, Stop>
    ensures writes { TellsWrites (O.faults out.old) (O.faults out.new) result }
    ensures reads { IfOk result (λ status. status ≡ 7 →
        Rose (F.faults files.old) (F.faults files.new) ⊎ Rose (I.faults input.old) (I.faults input.new)) }
    ensures status { IfOk result (λ status. status < 8) }
    ensures spent { IfOk result (λ status. status ≡ 0 → IsSpent (I.rest input.new)) }
    ensures answers { ByReads F.has_read files.old files.new
        (λ reads. ByInput I.has_read I.rest input.old input.new
        (λ inputs. ByWrites O.wrote O.taken out.old out.new (λ writes. 0 < asked.now.answers → queries.old ≡ [] →
        AnswersSessionFile asked.now (files_read (F.held files.new) (counted (F.faults files.old) (F.faults files.new)) reads)
        (input_read most (counted (I.faults input.old) (I.faults input.new)) inputs) (lists queries.new []) result writes))) }
    ensures ran { AllWithin (bounds_asked asked.now) queries.old → AllWithin (bounds_asked asked.now) queries.new }
{
    let text = match read_file(alloc, files, asked.file.as_str()) {
        Ok(text) => text,
        Err(FileStop::Fault) => return ended(out, READ_FAULT, 7),
        Err(FileStop::Memory) => return Err(Stop::Memory),
    };
    session_of_text(alloc, text, asked, input, most, out, queries)
}

/// Serves the lines of an input, asked of the program that a text is, where it has no fault and all of it is built.
fn session_of_text<I: Source, O: Sink>(
    alloc: Global,
    text: Vec<u8>,
    asked: &Options,
    input: &mut I,
    most: u64,
    out: &mut O,
    queries: &mut Queries,
) -> Result<u8, Stop>
    ensures writes { TellsWrites (O.faults out.old) (O.faults out.new) result }
    ensures reads { IfOk result (λ status. status ≡ 7 → Rose (I.faults input.old) (I.faults input.new)) }
    ensures status { IfOk result (λ status. status < 8) }
    ensures spent { IfOk result (λ status. status ≡ 0 → IsSpent (I.rest input.new)) }
    ensures answers { ByInput I.has_read I.rest input.old input.new
        (λ inputs. ByWrites O.wrote O.taken out.old out.new (λ writes. 0 < asked.now.answers → queries.old ≡ [] →
        AnswersSessionText asked.now text.items (input_read most (counted (I.faults input.old) (I.faults input.new)) inputs)
        (lists queries.new []) result writes)) }
    ensures ran { AllWithin (bounds_asked asked.now) queries.old → AllWithin (bounds_asked asked.now) queries.new }
{
    let judged = judge_program(alloc, text)?;
    match judged {
        ProgramJudged::Refused(line) => ended(out, line.as_str(), 3),
        ProgramJudged::Ready { program, core } => {
            let session = Session {
                alloc,
                program: &program,
                core: &core,
                manner: Manner::as_asked(asked),
            };
            session.serve_all(input, most, out, queries)
        }
    }
}
