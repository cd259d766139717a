//! Queries: a goal is asked, and its answers and its end are written.
ghost use Rattle.std.specs.Prelude.{◌≡◌, ◌<◌, ℕ, List, [], ◌∷◌, ◌++◌, IfOk, IfErr};
ghost use Rattle.std.specs.String.{string_bytes};
ghost use Rattle.pi_outside.specs.Writes.{ByWrites, SinkWrite};
ghost use Rattle.pi_core.specs.CoreTree.{PredTree, QueryTree, program_tree, query_tree};
ghost use Rattle.pi_print_terms.specs.PrintAnswer.{answer_lines};
ghost use Rattle.pi_constraints.specs.State.{empty_state};
ghost use Rattle.pi_meaning.specs.Machine.Budget.{IsWithin};
ghost use Rattle.pi_meaning.specs.Machine.Built.{IsRunnable};
ghost use Rattle.pi_engine.specs.Seen.{machine_view, mode_of};
ghost use Rattle.pi_top.specs.declared.manner.Lines.{Lines};
ghost use Rattle.pi_top.specs.declared.query.Stop.TheVariants.{Memory, Write};
ghost use Rattle.pi_top.specs.Faults.{TellsWrites};
ghost use Rattle.pi_top.specs.QueryEnd.{Exception, line_of, IsRun};
ghost use Rattle.pi_top.specs.ToldLines.{where_told};
ghost use Rattle.pi_top.specs.Running.{IsAtStart, IsSoFar, NextComes, ComesTo, HasRun};
ghost use Rattle.pi_top.specs.Runs.{AllWithin};
ghost use Rattle.pi_top.specs.Took.{bounds_of, bounds_in, took_in, KeepsRest};
ghost use Rattle.pi_top.specs.Writing.{Writes, WritesEnd};
ghost use Rattle.pi_top.specs.QueryWords.{asked_in, asked_query, told_query};

use crate::handed::write_text;
use crate::manner::{Lines, Manner};
use crate::runs::{Queries, QueryRun};
use crate::starting::{Begun, begin};
use pi_constraints::KeptStates;
use pi_core::{Answer, CoreProgram, CoreQuery};
use pi_engine::{Budget, Happening, Machine};
use pi_outside::{Failed, Sink};
use pi_print_terms::{answer_text, term_text};
use pi_region::Words;
use pi_store::RawStore;
use pi_terms::Term;
use std::alloc::{AllocError, Global};

/// What ends a run without a line of its own.
#[derive(Clone, Copy)]
pub enum Stop {
    Write,
    Memory,
}

impl From<Failed> for Stop {
    ghost from_gives = { λ _ e. e ≡ Write };

    fn from(_e: Failed) -> Stop {
        Stop::Write
    }
}

impl From<AllocError> for Stop {
    ghost from_gives = { λ _ e. e ≡ Memory };

    fn from(_e: AllocError) -> Stop {
        Stop::Memory
    }
}

/// Asks a query in some manner, writes its answers as they come and the line of its end, and answers the status.
pub fn run_query<O: Sink>(
    alloc: Global,
    core: &CoreProgram,
    query: CoreQuery,
    manner: &Manner,
    out: &mut O,
    queries: &mut Queries,
) -> Result<u8, Stop>
    ensures writes { TellsWrites (O.faults out.old) (O.faults out.new) result }
    ensures status { IfOk result IsRun }
    ensures ran { AllWithin (bounds_of manner.now) queries.old → AllWithin (bounds_of manner.now) queries.new }
    ensures comes { ByWrites O.wrote O.taken out.old out.new (λ writes. IsRunnable (program_tree core.now) (query_tree query) →
        0 < manner.now.answers →
        HasRun (asked_in manner.now (program_tree core.now) (query_tree query)) queries.old queries.new result writes) }
{
    let store = RawStore::new(alloc, Words::new(alloc));
    run_over(alloc, core, query, store, manner, out, queries)
}

/// The same over a store with the empty state.
fn run_over<S: KeptStates, O: Sink>(
    alloc: Global,
    core: &CoreProgram,
    query: CoreQuery,
    store: S,
    manner: &Manner,
    out: &mut O,
    queries: &mut Queries,
) -> Result<u8, Stop>
    ensures writes { TellsWrites (O.faults out.old) (O.faults out.new) result }
    ensures status { IfOk result IsRun }
    ensures ran { AllWithin (bounds_of manner.now) queries.old → AllWithin (bounds_of manner.now) queries.new }
    ensures comes { ByWrites O.wrote O.taken out.old out.new (λ writes. (S.seen store).now.state ≡ empty_state →
        IsRunnable (program_tree core.now) (query_tree query) → 0 < manner.now.answers →
        HasRun (asked_in manner.now (program_tree core.now) (query_tree query)) queries.old queries.new result writes) }
{
    let begun = begin(alloc, core, query, store, manner, queries)?;
    let Begun {
        mut machine,
        mut budget,
    } = begun;
    let status = write_answers(alloc, &mut machine, &mut budget, manner, out);
    queries.set_last(run_of(&budget));
    status
}

/// Writes the answers that a machine gives, as many as are asked for at most, and the line of the end.
fn write_answers<S: KeptStates, O: Sink>(
    alloc: Global,
    machine: &mut Machine<'_, S>,
    budget: &mut Budget,
    manner: &Manner,
    out: &mut O,
) -> Result<u8, Stop>
    ensures writes { TellsWrites (O.faults out.old) (O.faults out.new) result }
    ensures status { IfOk result IsRun }
    ensures within { IsWithin budget.old → IsWithin budget.new }
    ensures rest { KeepsRest (mode_of (machine_view S.seen S.order machine.old)) budget.old budget.new }
    ensures comes { ByWrites O.wrote O.taken out.old out.new (λ writes. (program : List PredTree) (q : QueryTree) →
        IsAtStart (machine_view S.seen S.order machine.old) budget.old manner.now.answers program q →
        ComesTo (asked_query manner.now.lines manner.now.answers (bounds_in budget.old) program q) (took_in budget.new) result writes) }
{
    for given in 0..manner.answers {
        match next_told(machine, budget, out)? {
            Happening::Answer(answer) => write_answer(alloc, manner.lines, out, &answer)?,
            end => return write_end(alloc, manner.lines, out, end, given > 0),
        }
    }
    ended_behind_answers(manner.lines, out, "stopped\n", 0)
}

/// The next answer or end of a machine, behind the texts that it writes before it.
pub fn next_told<S: KeptStates, O: Sink>(
    machine: &mut Machine<'_, S>,
    budget: &mut Budget,
    out: &mut O,
) -> Result<Happening, Stop>
    ensures writes { TellsWrites (O.faults out.old) (O.faults out.new) result }
    ensures within { IsWithin budget.old → IsWithin budget.new }
    ensures rest { KeepsRest (mode_of (machine_view S.seen S.order machine.old)) budget.old budget.new }
    ensures mode { mode_of (machine_view S.seen S.order machine.new) ≡ mode_of (machine_view S.seen S.order machine.old) }
    ensures comes { ByWrites O.wrote O.taken out.old out.new
        (λ writes. (lines : Lines) (first : List SinkWrite) (given : ℕ) (program : List PredTree) (q : QueryTree) →
        IsSoFar (told_query lines program q) (machine_view S.seen S.order machine.old) budget.old given first → IsRunnable program q →
        NextComes (told_query lines program q) given (machine_view S.seen S.order machine.new) budget.new result (first ++ writes)) }
{
    for _turn in 0..u64::MAX {
        match machine.next(budget) {
            Happening::Out(text) => write_text(out, text.as_str())?,
            happening => return Ok(happening),
        }
    }
    Err(Stop::Memory)
}

/// A query by what was used so far of its budget.
pub fn run_of(budget: &Budget) -> QueryRun
    ensures { result ≡ record { ticks = budget.now.ticks; work = budget.now.work; known = 0; first = 0 } }
{
    QueryRun {
        ticks: budget.ticks,
        work: budget.work,
        known: 0,
        first: 0,
    }
}

/// Writes the lines of an answer, where they are written.
pub fn write_answer<O: Sink>(
    alloc: Global,
    lines: Lines,
    out: &mut O,
    answer: &Answer,
) -> Result<(), Stop>
    ensures writes { TellsWrites (O.faults out.old) (O.faults out.new) result }
    ensures told { ByWrites O.wrote O.taken out.old out.new (Writes (where_told lines (answer_lines answer.now)) result) }
{
    match lines {
        Lines::All => write_lines(alloc, out, answer),
        Lines::WithoutAnswers => Ok(()),
    }
}

fn write_lines<O: Sink>(alloc: Global, out: &mut O, answer: &Answer) -> Result<(), Stop>
    ensures writes { TellsWrites (O.faults out.old) (O.faults out.new) result }
    ensures told { ByWrites O.wrote O.taken out.old out.new (Writes (answer_lines answer.now) result) }
{
    let lines = answer_text(alloc, answer)?;
    for line in lines.as_slice() {
        write_text(out, line.as_str())?;
    }
    Ok(())
}

/// Writes the line of a run's end, where it is written, and answers its status.
pub fn write_end<O: Sink>(
    alloc: Global,
    lines: Lines,
    out: &mut O,
    end: Happening,
    has_answers: bool,
) -> Result<u8, Stop>
    ensures writes { TellsWrites (O.faults out.old) (O.faults out.new) result }
    ensures status { IfOk result IsRun }
    ensures told { ByWrites O.wrote O.taken out.old out.new (WritesEnd lines end has_answers result) }
{
    match end {
        Happening::Done if has_answers => ended_behind_answers(lines, out, "no more\n", 0),
        Happening::Done => ended(out, "no\n", 1),
        Happening::Raised(ball) => write_raised(alloc, out, &ball),
        Happening::StepsSpent => ended(out, "steps spent\n", 5),
        Happening::WorkSpent => ended(out, "work spent\n", 6),
        _ => Err(Stop::Memory),
    }
}

/// Writes the line of an end behind answers, where answers are told, and answers its status.
pub fn ended_behind_answers<O: Sink>(
    lines: Lines,
    out: &mut O,
    line: &str,
    status: u8,
) -> Result<u8, Stop>
    ensures writes { TellsWrites (O.faults out.old) (O.faults out.new) result }
    ensures status { IfOk result (λ given. given ≡ status) }
    ensures stops { IfErr result (λ stop. stop ≡ Write) }
    ensures told { ByWrites O.wrote O.taken out.old out.new (Writes (where_told lines (line.now ∷ [])) result) }
{
    match lines {
        Lines::All => ended(out, line, status),
        Lines::WithoutAnswers => Ok(status),
    }
}

/// Writes the line with which a run ends, and answers its status.
pub fn ended<O: Sink>(out: &mut O, line: &str, status: u8) -> Result<u8, Stop>
    ensures writes { TellsWrites (O.faults out.old) (O.faults out.new) result }
    ensures status { IfOk result (λ given. given ≡ status) }
    ensures stops { IfErr result (λ stop. stop ≡ Write) }
    ensures told { ByWrites O.wrote O.taken out.old out.new (Writes (line.now ∷ []) result) }
{
    write_text(out, line)?;
    Ok(status)
}

/// Writes the line of an exception.
fn write_raised<O: Sink>(alloc: Global, out: &mut O, ball: &Term) -> Result<u8, Stop>
    ensures writes { TellsWrites (O.faults out.old) (O.faults out.new) result }
    ensures status { IfOk result (λ given. given ≡ 4) }
    ensures told { ByWrites O.wrote O.taken out.old out.new (Writes (line_of (Exception ball.now) ∷ []) result) }
{
    let line = raised_line(alloc, ball)?;
    ended(out, line.as_str(), 4)
}

/// The line of an exception.
fn raised_line(alloc: Global, ball: &Term) -> Result<String, AllocError>
    ensures { IfOk result (λ line. string_bytes line ≡ line_of (Exception ball.now)) }
{
    let term = term_text(alloc, ball, true)?;
    let line = format!(in alloc; "exception: {}\n", term.as_str())?;
    Ok(line)
}
