//! The mode `session`: the lines of an input are served one after the other.
ghost use Rattle.std.specs.Prelude.{◌≡◌, ◌<◌, [], IfOk};
ghost use Rattle.pi_core.specs.CoreTree.{program_tree};
ghost use Rattle.pi_outside.specs.Faults.{Rose};
ghost use Rattle.pi_outside.specs.Given.{IsSpent};
ghost use Rattle.pi_outside.specs.Inputs.{ByInput};
ghost use Rattle.pi_outside.specs.Writes.{ByWrites};
ghost use Rattle.pi_syntax.specs.ProgramTree.{source_tree};
ghost use Rattle.pi_outside.specs.Requests.{request_of as asked_by_line, another, a_goal};
ghost use Rattle.pi_top.specs.Faults.{TellsWrites, counted};
ghost use Rattle.pi_top.specs.Runs.{AllWithin};
ghost use Rattle.pi_top.specs.Serving.{Present as PresentQuery};
ghost use Rattle.pi_top.specs.AskingCode.{MayBeAsked};
ghost use Rattle.pi_top.specs.PresentCode.{IsBounded};
ghost use Rattle.pi_top.specs.QueryWords.{listed_over};
ghost use Rattle.pi_top.specs.ServingCode.{Keeps, ServesTo, its_session};
ghost use Rattle.pi_top.specs.SessionCode.{AnswersSession};
ghost use Rattle.pi_top.specs.Told.{input_read};
ghost use Rattle.pi_top.specs.Took.{bounds_of};

use crate::asking::{GoalJudged, judge_goal};
use crate::handed::{READ_FAULT, write_text};
use crate::lines::{INPUT_TOO_LONG, LINE_TOO_LONG, NO_QUERY};
use crate::manner::Manner;
use crate::present::{Present, answer};
use crate::query::{Stop, ended};
use crate::runs::Queries;
use crate::starting::begin;
use pi_constraints::StateStore;
use pi_core::CoreProgram;
use pi_outside::{Found, KEPT_LINE, LineReader, LineStop, Request, Sink, Source, request_of};
use pi_region::Words;
use pi_store::RawStore;
use pi_syntax::Program;
use std::alloc::Global;

/// The present query, if there is one.
pub type Standing<'p> = Option<Present<'p, RawStore>>;

/// What the goals of a session are asked of, and how.
#[derive(Clone, Copy)]
pub struct Session<'p> {
    pub alloc: Global,
    pub program: &'p Program,
    pub core: &'p CoreProgram,
    pub manner: Manner,
}

impl<'p> Session<'p> {
    /// Serves the lines of an input of which so many bytes are read at most.
    pub fn serve_all<I: Source, O: Sink>(
        &self,
        input: &mut I,
        most: u64,
        out: &mut O,
        queries: &mut Queries,
    ) -> Result<u8, Stop>
        ensures writes { TellsWrites (O.faults out.old) (O.faults out.new) result }
        ensures reads { IfOk result (λ status. status ≡ 7 → Rose (I.faults input.old) (I.faults input.new)) }
        ensures status { IfOk result (λ status. status < 8) }
        ensures spent { IfOk result (λ status. status ≡ 0 → IsSpent (I.rest input.new)) }
        ensures ran { AllWithin (bounds_of self.now.manner) queries.old → AllWithin (bounds_of self.now.manner) queries.new }
        ensures comes { ByInput I.has_read I.rest input.old input.new
            (λ reads. ByWrites O.wrote O.taken out.old out.new
            (λ writes. MayBeAsked (source_tree self.now.program.now) (program_tree self.now.core.now) → 0 < self.now.manner.answers →
            queries.old ≡ [] → AnswersSession self.now.manner (source_tree self.now.program.now)
            (input_read most (counted (I.faults input.old) (I.faults input.new)) reads) queries.new result writes)) }
    {
        let mut reader = LineReader::new(self.alloc, most)?;
        let mut present = None;
        for _turn in 0..u64::MAX {
            match reader.next(input, KEPT_LINE) {
                Ok(Found::Line(line)) => {
                    present = self.serve(line.as_slice(), present, out, queries)?;
                }
                Ok(Found::Last(line)) => {
                    drop(self.serve(line.as_slice(), present, out, queries)?);
                    return Ok(0);
                }
                Ok(Found::TooLong) => {
                    drop(present);
                    return ended(out, INPUT_TOO_LONG, 3);
                }
                Err(LineStop::Fault) => {
                    drop(present);
                    return ended(out, READ_FAULT, 7);
                }
                Err(LineStop::Memory) => {
                    drop(present);
                    return Err(Stop::Memory);
                }
            }
        }
        drop(present);
        Err(Stop::Memory)
    }

    /// Serves one line: does what it asks, and answers which query is the present one then.
    fn serve<O: Sink>(
        &self,
        line: &[u8],
        present: Standing<'p>,
        out: &mut O,
        queries: &mut Queries,
    ) -> Result<Standing<'p>, Stop>
        ensures writes { TellsWrites (O.faults out.old) (O.faults out.new) result }
        ensures ran { IsBounded (bounds_of self.now.manner) present.entry → AllWithin (bounds_of self.now.manner) queries.old →
            AllWithin (bounds_of self.now.manner) queries.new }
        ensures bounded { IsBounded (bounds_of self.now.manner) present.entry → IfOk result (IsBounded (bounds_of self.now.manner)) }
        ensures comes { ByWrites O.wrote O.taken out.old out.new (λ writes. (query : PresentQuery) →
            MayBeAsked (source_tree self.now.program.now) (program_tree self.now.core.now) → 0 < self.now.manner.answers →
            Keeps (its_session ⟦<RawStore as StateStore>⟧.seen ⟦<RawStore as StateStore>⟧.order self.now) present.entry query queries.old →
            ServesTo (its_session ⟦<RawStore as StateStore>⟧.seen ⟦<RawStore as StateStore>⟧.order self.now) query
            (asked_by_line line.now) result (listed_over queries.old queries.new) writes) }
    {
        match request_of(line) {
            Request::Nothing => Ok(present),
            Request::Another => self.answer_more(present, out, queries),
            Request::TooLong => {
                drop(present);
                write_text(out, LINE_TOO_LONG)?;
                Ok(None)
            }
            Request::Goal(text) => {
                drop(present);
                self.ask(text, out, queries)
            }
        }
    }

    /// Serves a request for the next answer.
    fn answer_more<O: Sink>(
        &self,
        present: Standing<'p>,
        out: &mut O,
        queries: &mut Queries,
    ) -> Result<Standing<'p>, Stop>
        ensures writes { TellsWrites (O.faults out.old) (O.faults out.new) result }
        ensures ran { IsBounded (bounds_of self.now.manner) present.entry → AllWithin (bounds_of self.now.manner) queries.old →
            AllWithin (bounds_of self.now.manner) queries.new }
        ensures bounded { IsBounded (bounds_of self.now.manner) present.entry → IfOk result (IsBounded (bounds_of self.now.manner)) }
        ensures comes { ByWrites O.wrote O.taken out.old out.new (λ writes. (query : PresentQuery) →
            Keeps (its_session ⟦<RawStore as StateStore>⟧.seen ⟦<RawStore as StateStore>⟧.order self.now) present.entry query queries.old →
            ServesTo (its_session ⟦<RawStore as StateStore>⟧.seen ⟦<RawStore as StateStore>⟧.order self.now) query
            another result (listed_over queries.old queries.new) writes) }
    {
        match present {
            Some(present) => answer(self.alloc, present, &self.manner, out, queries),
            None => {
                write_text(out, NO_QUERY)?;
                Ok(None)
            }
        }
    }

    /// Asks a goal, and writes its first answer or its end, or the line that says why it isn't asked.
    fn ask<O: Sink>(
        &self,
        text: &[u8],
        out: &mut O,
        queries: &mut Queries,
    ) -> Result<Standing<'p>, Stop>
        ensures writes { TellsWrites (O.faults out.old) (O.faults out.new) result }
        ensures ran { AllWithin (bounds_of self.now.manner) queries.old → AllWithin (bounds_of self.now.manner) queries.new }
        ensures bounded { IfOk result (IsBounded (bounds_of self.now.manner)) }
        ensures comes { ByWrites O.wrote O.taken out.old out.new (λ writes. (query : PresentQuery) →
            MayBeAsked (source_tree self.now.program.now) (program_tree self.now.core.now) → 0 < self.now.manner.answers →
            ServesTo (its_session ⟦<RawStore as StateStore>⟧.seen ⟦<RawStore as StateStore>⟧.order self.now) query
            (a_goal text.now) result (listed_over queries.old queries.new) writes) }
    {
        let judged = judge_goal(self.alloc, text, self.program, self.core)?;
        match judged {
            GoalJudged::Refused(line) => {
                write_text(out, line.as_str())?;
                Ok(None)
            }
            GoalJudged::Asks(query) => {
                let store = RawStore::new(self.alloc, Words::new(self.alloc));
                let begun = begin(self.alloc, self.core, query, store, &self.manner, queries)?;
                let present = Present {
                    machine: begun.machine,
                    budget: begun.budget,
                    given: 0,
                };
                answer(self.alloc, present, &self.manner, out, queries)
            }
        }
    }
}
