//! The machine, as its callers see it.
ghost use Rattle.std.specs.Prelude.{◌≡◌, [], ◌++◌, List, IfOk, IfErr};
ghost use Rattle.pi_constraints.specs.State.{empty_state};
ghost use Rattle.pi_constraints.specs.Store.{Stays};
ghost use Rattle.pi_core.specs.CoreTree.{PredTree, QueryTree, program_tree, query_tree};
ghost use Rattle.pi_meaning.specs.CoreMeaning.Run.{Solution};
ghost use Rattle.pi_meaning.specs.CoreMeaning.Sound.{IsSoundQuery};
ghost use Rattle.pi_meaning.specs.CoreMeaning.Defined.{QueryCallsDefined, NamesAreFree};
ghost use Rattle.pi_traces.specs.Trace.{Emitted};
ghost use Rattle.pi_meaning.specs.Shared.View.{View};
ghost use Rattle.pi_meaning.specs.Machine.Budget.{IsWithin};
ghost use Rattle.pi_meaning.specs.Machine.Built.{AreOfRules};
ghost use Rattle.pi_meaning.specs.declared.happening.Happening.{Happening};
ghost use Rattle.pi_engine.specs.Seen.{machine_view, store_of, mode_of, kept_by, end_of, HasEnded, GoesOn, Fits};
ghost use Rattle.pi_engine.specs.Runs.{RunsTo};
ghost use Rattle.pi_engine.specs.Spends.{Spends};
ghost use Rattle.pi_engine.specs.Happens.{Happens, IsBuiltSoFar, IsRepeated, lasting};

use crate::begin::begin;
use crate::turns::next_happening;
use pi_constraints::{KeptStates, StateStore};
use pi_core::{CoreProgram, CoreQuery, NameSlots};
use pi_engine_arenas::Run;
use pi_engine_code::Code;
use pi_meaning::{Budget, Happening, Mode};
use std::alloc::{AllocError, Global};

/// A run of a goal over a store. It borrows its program.
pub struct Machine<'p, S: StateStore> {
    names: NameSlots,
    code: Code<'p>,
    mode: Mode,
    pub(crate) run: Run<S>,
}

// By hand, so that letting one go is a call and not its parts at each way out.
impl<'p, S: StateStore> Drop for Machine<'p, S> {
    fn drop(self) {
        let Machine {
            names: _,
            code: _,
            mode: _,
            run: _,
        } = self;
    }
}

/// How much a run keeps beside its store: entries, frames, slots, and values that are collected.
#[derive(Clone, Copy)]
pub struct Kept {
    pub entries: usize,
    pub frames: usize,
    pub slots: usize,
    pub collected: usize,
}

impl<'p, S: StateStore> Machine<'p, S> {
    /// A machine that is to run the query over an empty store. It runs each kind of goal, under predicates and functions
    /// made of rules; those of the tables of `pi_lib_builtin` are built in. Where memory is wanted, the store comes back as it was.
    pub fn new(
        alloc: Global,
        core: &'p CoreProgram,
        query: CoreQuery,
        store: S,
        mode: Mode,
    ) -> Result<Machine<'p, S>, S>
        ensures runs { IfOk result (λ machine. (S.seen store).now.state ≡ empty_state →
            IsSoundQuery (program_tree core.now) (query_tree query) → QueryCallsDefined (program_tree core.now) (query_tree query) →
            NamesAreFree (program_tree core.now ++ (query_tree query).helpers) →
            AreOfRules (program_tree core.now ++ (query_tree query).helpers) → (v : View) → Fits mode v →
            RunsTo v (machine_view S.seen S.order machine) (program_tree core.now) (query_tree query) []) }
        ensures mode { IfOk result (λ machine. mode_of (machine_view S.seen S.order machine) ≡ mode) }
        ensures running { IfOk result (λ machine. GoesOn (machine_view S.seen S.order machine)) }
        ensures err { IfErr result (λ given. Stays (S.seen store) (S.seen given)) }
    {
        let mut run = Run::new(alloc, store);
        let Ok(start) = run.store.mark() else {
            return Err(run.into_store());
        };
        let CoreQuery {
            goal,
            helpers,
            names,
            slots,
        } = query;
        match begin(alloc, core, &goal, helpers, slots, &mut run) {
            Ok(code) => Ok(Machine {
                names,
                code,
                mode,
                run,
            }),
            Err(AllocError) => {
                run.store.undo(&start);
                Err(run.into_store())
            }
        }
    }
}

impl<S: KeptStates> Machine<'_, S> {
    /// What comes next: an answer, a text that is written, or the end, which is answered for good.
    pub fn next(&mut self, budget: &mut Budget) -> Happening
        ensures spends { Spends (mode_of (machine_view S.seen S.order self.old)) budget.old budget.new }
        ensures within { IsWithin budget.old → IsWithin budget.new }
        ensures mode { mode_of (machine_view S.seen S.order self.new) ≡ mode_of (machine_view S.seen S.order self.old) }
        ensures steps { GoesOn (machine_view S.seen S.order self.old) →
            (v : View) (program : List PredTree) (q : QueryTree) (events : List (Emitted Solution)) →
            RunsTo v (machine_view S.seen S.order self.old) program q events →
            Happens v program q events (machine_view S.seen S.order self.old)
            (machine_view S.seen S.order self.new) budget.old budget.new result }
        ensures built { IsBuiltSoFar result }
        ensures repeats { (end : Happening) → HasEnded (machine_view S.seen S.order self.old) end →
            IsRepeated end (machine_view S.seen S.order self.old) (machine_view S.seen S.order self.new) budget.old budget.new result }
        ensures lasts { end_of (machine_view S.seen S.order self.new) ≡ lasting result }
    {
        next_happening(
            &self.code,
            self.mode,
            self.names.as_slice(),
            &mut self.run,
            budget,
        )
    }
}

impl<S: StateStore> Machine<'_, S> {
    /// How much the run keeps beside its store.
    pub fn kept(&self) -> Kept
        ensures { result ≡ kept_by (machine_view S.seen S.order self.now) }
    {
        let arenas = &self.run.arenas;
        Kept {
            entries: arenas.count(),
            frames: arenas.frames.count(),
            slots: arenas.blocks.count(),
            collected: arenas.collected.len(),
        }
    }

    /// Gives the store back.
    pub fn into_store(self) -> S
        ensures { result ≡ store_of self.entry }
    {
        let Machine {
            names: _,
            code: _,
            mode: _,
            run,
        } = self;
        run.into_store()
    }
}
