//! The present query of a session, one request after the other.
ghost use Rattle.std.specs.Prelude.{◌≡◌, ◌<◌, List, [], ◌∷◌, ◌++◌, IfOk};
ghost use Rattle.pi_outside.specs.Writes.{ByWrites, SinkWrite};
ghost use Rattle.pi_core.specs.CoreTree.{PredTree, QueryTree};
ghost use Rattle.pi_meaning.specs.Machine.Budget.{IsWithin};
ghost use Rattle.pi_meaning.specs.Machine.Built.{IsRunnable};
ghost use Rattle.pi_engine.specs.Seen.{machine_view, mode_of};
ghost use Rattle.pi_top.specs.declared.runs.QueryRun.{QueryRun};
ghost use Rattle.pi_top.specs.Faults.{TellsWrites};
ghost use Rattle.pi_top.specs.Running.{IsWritten};
ghost use Rattle.pi_top.specs.Runs.{AllWithin};
ghost use Rattle.pi_top.specs.PresentCode.{IsInBudget, IsBounded, CanAnswer, AnswerComes};
ghost use Rattle.pi_top.specs.Took.{bounds_of, bounds_in, KeepsRest};
ghost use Rattle.pi_top.specs.Turn.{TurnComes};
ghost use Rattle.pi_top.specs.QueryWords.{asked_query, begun_query, told_query};

use crate::manner::Manner;
use crate::query::{Stop, ended_behind_answers, next_told, run_of, write_answer, write_end};
use crate::runs::Queries;
use pi_constraints::{KeptStates, StateStore};
use pi_engine::{Budget, Happening, Machine};
use pi_outside::Sink;
use std::alloc::Global;

/// The present query of a session: the machine that runs it, what it may still take, and how many of its answers were written.
#[derive(Drop)]
pub struct Present<'p, S: StateStore> {
    pub machine: Machine<'p, S>,
    pub budget: Budget,
    pub given: u64,
}

/// Serves a request of a query, which is the last one that is listed.
pub fn answer<'p, S: KeptStates, O: Sink>(
    alloc: Global,
    present: Present<'p, S>,
    manner: &Manner,
    out: &mut O,
    queries: &mut Queries,
) -> Result<Option<Present<'p, S>>, Stop>
    ensures writes { TellsWrites (O.faults out.old) (O.faults out.new) result }
    ensures ran { IsInBudget (bounds_of manner.now) present.entry.budget → AllWithin (bounds_of manner.now) queries.old →
        AllWithin (bounds_of manner.now) queries.new }
    ensures bounded { IsInBudget (bounds_of manner.now) present.entry.budget → IfOk result (IsBounded (bounds_of manner.now)) }
    ensures comes { ByWrites O.wrote O.taken out.old out.new
        (λ writes. (first : List SinkWrite) (program : List PredTree) (q : QueryTree) (earlier : List QueryRun) (run : QueryRun) →
        queries.old ≡ earlier ++ run ∷ [] → CanAnswer manner.now program q
        (machine_view S.seen S.order present.entry.machine) present.entry.budget present.entry.given first →
        AnswerComes (machine_view S.seen S.order) manner.now (begun_query program q present.entry.given earlier) result queries.new
        (first ++ writes)) }
{
    let Present {
        mut machine,
        mut budget,
        given,
    } = present;
    let next = write_next(alloc, &mut machine, &mut budget, given, manner, out);
    queries.set_last(run_of(&budget));
    let Some(given) = next? else {
        return Ok(None);
    };
    Ok(Some(Present {
        machine,
        budget,
        given,
    }))
}

/// Writes the next answer of a machine or the line of its end, where so many answers were written before. Where it may be asked for more,
/// the answer is how many are written now.
fn write_next<S: KeptStates, O: Sink>(
    alloc: Global,
    machine: &mut Machine<'_, S>,
    budget: &mut Budget,
    given: u64,
    manner: &Manner,
    out: &mut O,
) -> Result<Option<u64>, Stop>
    ensures writes { TellsWrites (O.faults out.old) (O.faults out.new) result }
    ensures within { IsWithin budget.old → IsWithin budget.new }
    ensures rest { KeepsRest (mode_of (machine_view S.seen S.order machine.old)) budget.old budget.new }
    ensures mode { mode_of (machine_view S.seen S.order machine.new) ≡ mode_of (machine_view S.seen S.order machine.old) }
    ensures comes { ByWrites O.wrote O.taken out.old out.new
        (λ writes. (first : List SinkWrite) (program : List PredTree) (q : QueryTree) →
        IsWritten (told_query manner.now.lines program q) (machine_view S.seen S.order machine.old) budget.old given first →
        IsRunnable program q → given < manner.now.answers →
        TurnComes (asked_query manner.now.lines manner.now.answers (bounds_in budget.old) program q) given
        (machine_view S.seen S.order machine.new) budget.new result (first ++ writes)) }
{
    match next_told(machine, budget, out)? {
        Happening::Answer(answer) => write_answer(alloc, manner.lines, out, &answer)?,
        end => {
            write_end(alloc, manner.lines, out, end, given > 0)?;
            return Ok(None);
        }
    }
    let last = manner.answers.saturating_sub(1);
    if given < last {
        return Ok(Some(given + 1));
    }
    ended_behind_answers(manner.lines, out, "stopped\n", 0)?;
    Ok(None)
}
