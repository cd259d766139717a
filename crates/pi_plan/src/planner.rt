//! The planner: it asks for states, and answers a plan or that there is none.
ghost use Rattle.std.specs.Prelude.{◌≡◌, ◌<◌, ◌^◌, ◌++◌, ◌∷◌, [], ℕ, List, Some, None, Ok, IsSome, IfOk, IfErr, OnOk, OnErr, pos};
ghost use Rattle.pi_plan.specs.declared.given.GivenState.{GivenState};
ghost use Rattle.pi_plan.specs.declared.checks.PlanFault.{PlanFault};
ghost use Rattle.pi_plan.specs.declared.planner.PlanStep.{PlanStep};
ghost use Rattle.pi_plan.specs.Faults.{first_fault, start_fault, Refuses};
ghost use Rattle.pi_plan.specs.Planner.{wanted_of, waits_for, ended_by, IsSameCall, Says, Leaves, Repeats, IsSound, Begins, Gives, GoesOn, MayLack, Tells};

mod entry;
mod stages;

use crate::advance::begin;
use crate::checks::{PlanFault, check, check_start};
use crate::given::{GivenStates, Successors};
use crate::search::Search;
use entry::entry_of;
use pi_terms::{Series, Term};
use stages::{from_given, from_ready, told};
use std::alloc::{AllocError, Global};

/// What a planner answers: a state that it has to be given, with what is left of the limit there; a plan, as the list of
/// its actions, with its cost; that there is none; or that no memory is left.
#[derive(Drop)]
pub enum PlanStep {
    Expand(Term, i128),
    Found { plan: Term, cost: i128 },
    NoPlan,
    Memory,
}

/// An end, which is answered for good.
#[derive(Drop)]
pub(crate) enum Ending {
    Found { plan: Term, cost: i128 },
    NoPlan,
    Memory,
}

/// How far a planner is: it may ask for more; it asked for the state of a way, or was given it; or it has ended.
pub(crate) enum Stage {
    Ready,
    Asked(usize),
    Given(usize),
    Ended(Ending),
}

// By hand, so that letting one go is a call and not its parts at each way out.
impl Drop for Stage {
    fn drop(self) {
        match self {
            Stage::Ready => {}
            Stage::Asked(_) => {}
            Stage::Given(_) => {}
            Stage::Ended(_) => {}
        }
    }
}

/// A search for a plan over what it is given.
#[derive(Drop)]
pub struct Planner {
    alloc: Global,
    start: Term,
    limit: u128,
    best: bool,
    given: GivenStates,
    search: Search,
    stage: Stage,
}

impl Planner {
    /// A planner of a call: from this state, within this limit, of a best plan or of any, in a program that is by rests or
    /// isn't. The start is judged before the limit.
    pub fn new(
        alloc: Global,
        start: Term,
        limit: i128,
        best: bool,
        by_rest: bool,
    ) -> Result<Planner, PlanFault>
        ensures sound { IfOk result IsSound }
        ensures begun { IfOk result (Begins start limit best by_rest) }
        ensures fit { OnOk result (start_fault start limit ≡ None) }
        ensures err { IfErr result (Refuses (start_fault start limit)) }
    {
        match check_start(alloc, &start, limit) {
            Ok(()) => {}
            Err(fault) => return Err(fault),
        }
        let limit = limit.unsigned_abs();
        match begin(alloc, &start, limit, best, by_rest) {
            Ok(search) => Ok(Planner {
                alloc,
                start,
                limit,
                best,
                given: Series::new(alloc),
                search,
                stage: Stage::Ready,
            }),
            Err(AllocError) => Err(PlanFault::Memory),
        }
    }

    /// All that it was given.
    pub fn given(&self) -> &GivenStates
        ensures { result.now ≡ self.now.given }
    {
        &self.given
    }

    /// What comes next: a state that has to be given, or an end, which is answered for good.
    pub fn next(&mut self) -> PlanStep
        requires sound { IsSound self.old }
        requires answered { waits_for self.old ≡ None }
        ensures sound { IsSound self.new }
        ensures same { IsSameCall self.old self.new }
        ensures given { self.new.given ≡ self.old.given }
        ensures says { ended_by self.old ≡ None → Says self.new.given self.new.search.by_rest (wanted_of self.new) result }
        ensures leaves { Leaves result self.new }
        ensures repeats { (e : PlanStep) → ended_by self.old ≡ Some e → Repeats e result }
    {
        match self.go_on() {
            Ok(step) => step,
            Err(AllocError) => {
                self.stage = Stage::Ended(Ending::Memory);
                PlanStep::Memory
            }
        }
    }

    /// Goes on to the next stage, where there is one, and tells what is answered there.
    fn go_on(&mut self) -> Result<PlanStep, AllocError>
        ensures same { IsSameCall self.old self.new }
        ensures given { self.new.given ≡ self.old.given }
        ensures goes { IsSound self.old → OnOk result
            (GoesOn self.old.stage self.new.stage (wanted_of self.old) self.old.given self.new.search) }
        ensures tells { IfOk result (Tells self.new.stage self.new.search.ways.items) }
        ensures lacks { IsSound self.old → OnErr result (MayLack self.old.stage) }
    {
        self.reach_stage()?;
        told(self.alloc, &self.stage, &self.search.ways)
    }

    fn reach_stage(&mut self) -> Result<(), AllocError>
        ensures same { IsSameCall self.old self.new }
        ensures given { self.new.given ≡ self.old.given }
        ensures goes { IsSound self.old → OnOk result
            (GoesOn self.old.stage self.new.stage (wanted_of self.old) self.old.given self.new.search) }
        ensures lacks { OnErr result (MayLack self.old.stage) }
    {
        match &self.stage {
            Stage::Ready => {
                let stage = from_ready(&mut self.search, self.alloc, &self.start, self.limit)?;
                self.stage = stage;
                Ok(())
            }
            Stage::Asked(_) => Ok(()),
            Stage::Given(way) => {
                let way = *way;
                let given = self.given.as_slice();
                let stage = from_given(
                    &mut self.search,
                    self.alloc,
                    &self.start,
                    self.limit,
                    given,
                    way,
                )?;
                self.stage = stage;
                Ok(())
            }
            Stage::Ended(_) => Ok(()),
        }
    }

    /// Takes what the bodies of the call come to at the state that was asked for. A refusal leaves the planner as it was.
    pub fn give(&mut self, is_final: bool, successors: &Successors) -> Result<(), PlanFault>
        requires sound { IsSound self.old }
        requires asked { IsSome (waits_for self.old) }
        ensures sound { OnOk result (IsSound self.new) }
        ensures ok { OnOk result (Gives self.old self.new is_final successors.now) }
        ensures fit { OnOk result (first_fault successors.now ≡ None) }
        ensures err { IfErr result (Refuses (first_fault successors.now)) }
        ensures unchanged { OnErr result (self.new ≡ self.old) }
    {
        let Stage::Asked(way) = &self.stage else {
            return Err(PlanFault::Memory);
        };
        let way = *way;
        match check(self.alloc, successors.as_slice()) {
            Ok(()) => {}
            Err(fault) => return Err(fault),
        }
        let Ok(entry) = entry_of(self.alloc, &self.search.ways, way, is_final, successors) else {
            return Err(PlanFault::Memory);
        };
        let Ok(()) = self.given.push(entry) else {
            return Err(PlanFault::Memory);
        };
        self.stage = Stage::Given(way);
        Ok(())
    }
}
