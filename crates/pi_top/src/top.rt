//! The top call.
ghost use Rattle.std.specs.Prelude.{◌≡◌, ◌<◌, [], map, is_some, true, IfOk, Some};
ghost use Rattle.std.specs.String.{string_bytes};
ghost use Rattle.pi_outside.specs.Faults.{NeverFalls, Rose};
ghost use Rattle.pi_outside.specs.Given.{IsSpent};
ghost use Rattle.pi_outside.specs.Inputs.{ByInput};
ghost use Rattle.pi_outside.specs.Reads.{ByReads};
ghost use Rattle.pi_outside.specs.Writes.{ByWrites};
ghost use Rattle.pi_top.specs.SessionEnds.{AnswersSessionFile, most_input};
ghost use Rattle.pi_top.specs.Ends.{AsksNoSession, AsksSession, ReadsNoFile, AnswersText, AnswersFile, AnswersMade, AnswersBy, GivesStatus};
ghost use Rattle.pi_top.specs.Faults.{FaultCount, Stands, counted, TellsWrites};
ghost use Rattle.pi_top.specs.Manner.{goal_of, manner_of};
ghost use Rattle.pi_top.specs.Over.{files_over, input_over, sink_over};
ghost use Rattle.pi_top.specs.Promise.{Promise};
ghost use Rattle.pi_top.specs.Runs.{AllWithin};
ghost use Rattle.pi_top_words.specs.Words.{options, places_of};
ghost use Rattle.pi_top_words.specs.declared.asked.Options.{Options};
ghost use Rattle.pi_top.specs.Told.{files_read, input_read, lists};
ghost use Rattle.pi_top.specs.Took.{bounds_asked};

use crate::demo::demo_text;
use crate::files::{FileStop, read_file};
use crate::handed::{READ_FAULT, write_text};
use crate::judgement::{Judged, judge};
use crate::lines::{MEMORY, USAGE};
use crate::manner::{Manner, goal_of};
use crate::outcome::Outcome;
use crate::printing::print_text;
use crate::query::{Stop, ended, run_query};
use crate::runs::Queries;
use crate::session_file::session_of_file;
use pi_outside::{Files, Sink, Source};
use pi_terms::Series;
use pi_top_words::{Options, RunMode, WordsFault, read_words};
use std::alloc::Global;

/// The most bytes of a session's input.
const MOST_INPUT: u64 = 1_073_741_824;

/// Runs picatq on the words behind the program's name: reads the program from `files`, asks its goal, or those of the lines
/// of `input`, and writes what there is to say to `out`, each line as it comes. What it promises is one record, `Promise` of
/// `specs/Promise.antt`.
pub fn picatq<F: Files, I: Source, O: Sink>(
    alloc: Global,
    words: &[String],
    files: &mut F,
    input: &mut I,
    out: &mut O,
) -> Outcome
    ensures { Promise most_input (map string_bytes words.now) (files_over F.has_read F.held F.faults files.old files.new)
        (input_over I.has_read I.rest I.faults input.old input.new) (sink_over O.wrote O.taken O.faults out.old out.new) result }
{
    picatq_limited(alloc, words, files, input, out, MOST_INPUT)
}

/// The same with a session's input of so many bytes at most.
pub fn picatq_limited<F: Files, I: Source, O: Sink>(
    alloc: Global,
    words: &[String],
    files: &mut F,
    input: &mut I,
    out: &mut O,
    most: u64,
) -> Outcome
    ensures { Promise most (map string_bytes words.now) (files_over F.has_read F.held F.faults files.old files.new)
        (input_over I.has_read I.rest I.faults input.old input.new) (sink_over O.wrote O.taken O.faults out.old out.new) result }
{
    let mut queries = Series::new(alloc);
    let answer = answered(alloc, words, files, input, most, out, &mut queries);
    let status = status_of(answer, out);
    let log = Series::new(alloc);
    let entered = Series::new(alloc);
    Outcome {
        status,
        queries,
        log,
        entered,
    }
}

/// The status of what was answered. Where memory is wanted, a line says so, if it can be written.
fn status_of<O: Sink>(answer: Result<u8, Stop>, out: &mut O) -> u8
    ensures gives { ByWrites O.wrote O.taken out.old out.new (GivesStatus answer result (counted (O.faults out.old) (O.faults out.new))) }
    ensures never_falls { NeverFalls (O.faults out.old) (O.faults out.new) }
{
    match answer {
        Ok(status) => status,
        Err(Stop::Write) => 8,
        Err(Stop::Memory) => {
            let _ = write_text(out, MEMORY);
            9
        }
    }
}

fn answered<F: Files, I: Source, O: Sink>(
    alloc: Global,
    words: &[String],
    files: &mut F,
    input: &mut I,
    most: u64,
    out: &mut O,
    queries: &mut Queries,
) -> Result<u8, Stop>
    ensures writes { TellsWrites (O.faults out.old) (O.faults out.new) result }
    ensures status { IfOk result (λ status. status < 8) }
    ensures unread { ReadsNoFile (options (map string_bytes words.now)) → files.new ≡ files.old }
    ensures no_input { AsksNoSession (options (map string_bytes words.now)) → input.new ≡ input.old }
    ensures spent { (asked : Options) → AsksSession (options (map string_bytes words.now)) asked →
        IfOk result (λ status. status ≡ 0 → IsSpent (I.rest input.new)) }
    ensures answers { ByReads F.has_read files.old files.new
        (λ reads. ByWrites O.wrote O.taken out.old out.new (λ writes. queries.old ≡ [] →
        AsksNoSession (options (map string_bytes words.now)) →
        AnswersBy (options (map string_bytes words.now))
        (files_read (F.held files.new) (counted (F.faults files.old) (F.faults files.new)) reads)
        (lists queries.new []) result writes)) }
    ensures session { ByReads F.has_read files.old files.new
        (λ reads. ByInput I.has_read I.rest input.old input.new
        (λ inputs. ByWrites O.wrote O.taken out.old out.new (λ writes. queries.old ≡ [] → (asked : Options) →
        AsksSession (options (map string_bytes words.now)) asked →
        AnswersSessionFile asked (files_read (F.held files.new) (counted (F.faults files.old) (F.faults files.new)) reads)
        (input_read most (counted (I.faults input.old) (I.faults input.new)) inputs) (lists queries.new []) result writes))) }
    ensures ran { (asked : Options) → options (map string_bytes words.now) ≡ Some asked → AllWithin (bounds_asked asked) queries.old →
        AllWithin (bounds_asked asked) queries.new }
{
    let asked = match read_words(alloc, words) {
        Ok(asked) => asked,
        Err(WordsFault::NoRecord) => return ended(out, USAGE, 2),
        Err(WordsFault::Memory) => return Err(Stop::Memory),
    };
    match asked.mode {
        RunMode::Query => asked_of_file(alloc, &asked, files, out, queries),
        RunMode::Run => asked_of_file(alloc, &asked, files, out, queries),
        RunMode::Print => asked_of_file(alloc, &asked, files, out, queries),
        RunMode::Demo => asked_of_demo(alloc, &asked, out, queries),
        RunMode::Session => session_of_file(alloc, &asked, files, input, most, out, queries),
    }
}

/// Asks a goal of the program in a file, or prints it.
fn asked_of_file<F: Files, O: Sink>(
    alloc: Global,
    asked: &Options,
    files: &mut F,
    out: &mut O,
    queries: &mut Queries,
) -> Result<u8, Stop>
    ensures writes { TellsWrites (O.faults out.old) (O.faults out.new) result }
    ensures reads { IfOk result (λ status. status ≡ 7 → Rose (F.faults files.old) (F.faults files.new)) }
    ensures status { IfOk result (λ status. status < 8) }
    ensures answers { ByReads F.has_read files.old files.new
        (λ reads. ByWrites O.wrote O.taken out.old out.new (λ writes. 0 < asked.now.answers → queries.old ≡ [] →
        AnswersFile asked.now (files_read (F.held files.new) (counted (F.faults files.old) (F.faults files.new)) reads)
        (lists queries.new []) result writes)) }
    ensures ran { AllWithin (bounds_asked asked.now) queries.old → AllWithin (bounds_asked asked.now) queries.new }
{
    let text = match read_file(alloc, files, asked.file.as_str()) {
        Ok(text) => text,
        Err(FileStop::Fault) => return ended(out, READ_FAULT, 7),
        Err(FileStop::Memory) => return Err(Stop::Memory),
    };
    match asked.mode {
        RunMode::Print => print_text(alloc, text, out),
        _ => asked_of_text(alloc, text, asked, out, queries),
    }
}

/// Asks a goal of the program that is made of a number.
fn asked_of_demo<O: Sink>(
    alloc: Global,
    asked: &Options,
    out: &mut O,
    queries: &mut Queries,
) -> Result<u8, Stop>
    ensures writes { TellsWrites (O.faults out.old) (O.faults out.new) result }
    ensures no_read { IfOk result (λ status. status < 7) }
    ensures answers { ByWrites O.wrote O.taken out.old out.new (λ writes. 0 < asked.now.answers →
        is_some (places_of asked.now) ≡ true → queries.old ≡ [] → (files : FaultCount) → Stands files →
        AnswersMade asked.now files [] (lists queries.new []) result writes) }
    ensures ran { AllWithin (bounds_asked asked.now) queries.old → AllWithin (bounds_asked asked.now) queries.new }
{
    let Some(places) = asked.places() else {
        return ended(out, USAGE, 2);
    };
    let text = demo_text(alloc, places)?;
    let bytes = Vec::from_slice(alloc, text.as_str().as_bytes())?;
    drop(text);
    asked_of_text(alloc, bytes, asked, out, queries)
}

/// Asks a goal of the program that a text is, where neither has a fault and all of both is built.
fn asked_of_text<O: Sink>(
    alloc: Global,
    text: Vec<u8>,
    asked: &Options,
    out: &mut O,
    queries: &mut Queries,
) -> Result<u8, Stop>
    ensures writes { TellsWrites (O.faults out.old) (O.faults out.new) result }
    ensures no_read { IfOk result (λ status. status < 7) }
    ensures answers { ByWrites O.wrote O.taken out.old out.new (λ writes. 0 < asked.now.answers → queries.old ≡ []
        → AnswersText (manner_of asked.now) text.items (goal_of asked.now) (lists queries.new []) result writes) }
    ensures ran { AllWithin (bounds_asked asked.now) queries.old → AllWithin (bounds_asked asked.now) queries.new }
{
    let goal = goal_of(asked);
    let judged = judge(alloc, text, goal.as_bytes())?;
    let manner = Manner::of(asked);
    match judged {
        Judged::Refused(line) => ended(out, line.as_str(), 3),
        Judged::Asks { core, query } => run_query(alloc, &core, query, &manner, out, queries),
    }
}
