//! A program and a goal resolved into flat tables, once.
ghost use Rattle.std.specs.Prelude.{◌≡◌, ◌++◌, [], IfOk};
ghost use Rattle.pi_constraints.specs.State.{bindings};
ghost use Rattle.pi_constraints.specs.Value.{IsAcyclic};
ghost use Rattle.pi_constraints.specs.Store.{Keeps, Stays};
ghost use Rattle.pi_engine_code.specs.Code.{preds_of, tables_of};
ghost use Rattle.pi_engine_code.specs.Laid.{IsBlank, HasItsCore};
ghost use Rattle.pi_engine_code.specs.Numbers.{IsNumbering};
ghost use Rattle.pi_engine_code.specs.LaidRules.{IsFilled, in_tables, tables_with};

mod goals;
mod keys;
mod named;
mod numbers;
mod rules;
mod sizes;
mod terms;

use crate::callables::Callables;
use crate::code::Code;
use crate::fact_keys::FactKeys;
use keys::fact_keys;
use numbers::Numbers;
use pi_constraints::StateStore;
use pi_core::{CoreGoal, CorePred, CorePreds, CoreProgram};
use std::alloc::{AllocError, Global};

/// A program and a goal, whose place is answered too: each call knows the number of its predicate, and each ground term is
/// a term of the store.
pub fn build_code<'p, S: StateStore>(
    alloc: Global,
    core: &'p CoreProgram,
    helpers: CorePreds,
    goal: &CoreGoal,
    slots: u32,
    store: &mut S,
) -> Result<(Code<'p>, u32), AllocError>
    ensures keeps { Keeps (S.seen store.old) (S.seen store.new) }
    ensures stays { IfOk result (λ _. Stays (S.seen store.old) (S.seen store.new)) }
    ensures source { IfOk result (λ built. preds_of built.0 ≡ core.now.preds ++ helpers) }
    ensures filled { IfOk result (λ built. IsAcyclic (bindings (S.seen store.old).now.state) →
        IsFilled (in_tables (preds_of built.0) (tables_of (S.seen store.new).now.terms built.0) (S.seen store.new).names built.0)
        goal.now slots built.1) }
{
    let mut code = no_code(alloc, core);
    let preds = core.preds.as_slice();
    let place = fill(
        alloc,
        &mut code,
        store,
        preds,
        helpers.as_slice(),
        goal,
        slots,
    )?;
    code.helpers = helpers;
    Ok((code, place))
}

/// Fills tables with the predicates of a program, a goal's own ones and the goal, whose place is answered.
fn fill<S: StateStore>(
    alloc: Global,
    code: &mut Code<'_>,
    store: &mut S,
    preds: &[CorePred],
    helpers: &[CorePred],
    goal: &CoreGoal,
    slots: u32,
) -> Result<u32, AllocError>
    ensures keeps { Keeps (S.seen store.old) (S.seen store.new) }
    ensures stays { IfOk result (λ _. Stays (S.seen store.old) (S.seen store.new)) }
    ensures core { IfOk result (λ _. HasItsCore code.old code.new) }
    ensures filled { IfOk result (λ place. IsBlank code.old → IsAcyclic (bindings (S.seen store.old).now.state) →
        IsFilled (tables_with (preds.now ++ helpers.now) (S.seen store.new) code.new) goal.now slots place) }
{
    let mut numbers = Numbers::new(alloc);
    numbers.add(preds)?;
    numbers.add(helpers)?;
    let builder = Builder { alloc, numbers };
    let place = builder.add_all(code, store, preds, helpers, goal, slots);
    drop(builder);
    place
}

/// Empty tables.
fn no_code(alloc: Global, core: &CoreProgram) -> Code<'_>
    ensures core { result.core.now ≡ core.now }
    ensures steps { result.steps.items ≡ [] }
    ensures predicates { result.predicates.items ≡ [] }
{
    Code {
        core,
        helpers: CorePreds::new(alloc),
        steps: Vec::new(alloc),
        operands: Vec::new(alloc),
        parts: Vec::new(alloc),
        names: Vec::new(alloc),
        tests: Vec::new(alloc),
        rules: Vec::new(alloc),
        predicates: Vec::new(alloc),
        callables: Callables::new(alloc),
        keys: FactKeys::new(alloc),
    }
}

/// A place in a table, which has 32 bits: a longer table is more than memory is asked for.
fn short(n: usize) -> Result<u32, AllocError>
    ensures { IfOk result (λ made. made ≡ n) }
{
    u32::try_from(n).map_err(|_| AllocError)
}

/// The slots of a clause in its blocks: where they begin, and how many they are.
#[derive(Clone, Copy)]
struct Shape {
    first_slot: u32,
    slots: u32,
}

/// What goals are resolved by.
#[derive(Drop)]
struct Builder<'n> {
    alloc: Global,
    numbers: Numbers<'n>,
}

impl Builder<'_> {
    /// Adds predicates, a goal's own ones and the goal, whose place is answered, and the goals by which names are called and
    /// the keys of facts.
    fn add_all<S: StateStore>(
        &self,
        code: &mut Code<'_>,
        store: &mut S,
        preds: &[CorePred],
        helpers: &[CorePred],
        goal: &CoreGoal,
        slots: u32,
    ) -> Result<u32, AllocError>
        ensures keeps { Keeps (S.seen store.old) (S.seen store.new) }
        ensures stays { IfOk result (λ _. Stays (S.seen store.old) (S.seen store.new)) }
        ensures core { IfOk result (λ _. HasItsCore code.old code.new) }
        ensures filled { IfOk result (λ place. IsBlank code.old → IsNumbering self.now.numbers (preds.now ++ helpers.now) →
            IsAcyclic (bindings (S.seen store.old).now.state) →
            IsFilled (tables_with (preds.now ++ helpers.now) (S.seen store.new) code.new) goal.now slots place) }
    {
        self.add_predicates(code, store, preds)?;
        self.add_predicates(code, store, helpers)?;
        let shape = Shape {
            first_slot: 0,
            slots,
        };
        let place = self.add_goal(code, store, goal, shape, false)?;
        let callables = self.add_callables(code, store, preds, helpers)?;
        code.callables = callables;
        let keys = fact_keys(self.alloc, code, preds)?;
        code.keys = keys;
        Ok(place)
    }
}
