//! The goals by which names are called, laid out behind all others.
ghost use Rattle.std.specs.Prelude.{◌≡◌, ◌++◌, ℕ, List, Some, AllPairs, IfOk, map};
ghost use Rattle.pi_constraints.specs.State.{bindings};
ghost use Rattle.pi_constraints.specs.Value.{IsAcyclic};
ghost use Rattle.pi_constraints.specs.Store.{IsName, Keeps, Stays};
ghost use Rattle.pi_core.specs.CoreTree.{pred_tree};
ghost use Rattle.pi_core.specs.declared.core_program.CorePred.{CorePred as Pred};
ghost use Rattle.pi_meaning.specs.CoreMeaning.Sound.{IsAnother};
ghost use Rattle.pi_lib_builtin.specs.Resolved.{rows_shown};
ghost use Rattle.pi_engine_code.specs.Numbers.{IsNumbering};
ghost use Rattle.pi_engine_code.specs.Laid.{AddsSteps, AreResolved, tables_for};
ghost use Rattle.pi_engine_code.specs.Callables.{AreCallable, AddsPlaces, HasPlaces, AreNamed, names_called, placing};

use super::{Builder, Shape};
use crate::callables::Callables;
use crate::code::Code;
use pi_constraints::{Cell, StateStore};
use pi_core::CorePred;
use pi_lib_builtin::predicate_names;
use pi_meaning::goal_by_name;
use std::alloc::{AllocError, Global};

/// The names of goals of constraints, each with its number of arguments.
const CONSTRAINT_NAMES: [(&'static str, u32); 18] = [
    ("::", 2),
    ("notin", 2),
    ("#=", 2),
    ("#!=", 2),
    ("#<", 2),
    ("#=<", 2),
    ("#<=", 2),
    ("#>", 2),
    ("#>=", 2),
    ("#~", 1),
    ("#/\\", 2),
    ("#\\/", 2),
    ("#^", 2),
    ("#=>", 2),
    ("#<=>", 2),
    ("all_different", 1),
    ("all_distinct", 1),
    ("element", 3),
];

/// The names of calls that label, each with its number of arguments.
const SOLVE_NAMES: [(&'static str, u32); 2] = [("solve", 1), ("solve", 2)];

impl Builder<'_> {
    /// Adds the goals by which names are called, and answers their places.
    pub(super) fn add_callables<S: StateStore>(
        &self,
        code: &mut Code<'_>,
        store: &mut S,
        preds: &[CorePred],
        helpers: &[CorePred],
    ) -> Result<Callables, AllocError>
        ensures keeps { Keeps (S.seen store.old) (S.seen store.new) }
        ensures adds { IfOk result (λ _. AddsSteps (S.seen store.old) (S.seen store.new) code.old code.new) }
        ensures resolved { IfOk result (λ _. (all : List Pred) → IsNumbering self.now.numbers all →
            AreResolved all code.old.steps.items → AreResolved all code.new.steps.items) }
        ensures callable { IfOk result (λ made. IsNumbering self.now.numbers (preds.now ++ helpers.now) →
            IsAcyclic (bindings (S.seen store.old).now.state) → AllPairs IsAnother (map pred_tree (preds.now ++ helpers.now)) →
            AreCallable (preds.now ++ helpers.now) (tables_for (preds.now ++ helpers.now) (S.seen store.new).now.terms code.new)
            (S.seen store.new).names code.new.steps.items made) }
    {
        let names = callable_names(self.alloc, preds, helpers)?;
        let mut callables = Callables::new(self.alloc);
        for named in &names {
            self.add_callable(code, store, &mut callables, named.0, named.1)?;
        }
        Ok(callables)
    }

    /// Adds the goal by which a name is called with so many arguments, and its place.
    fn add_callable<S: StateStore>(
        &self,
        code: &mut Code<'_>,
        store: &mut S,
        callables: &mut Callables,
        name: &str,
        arity: u32,
    ) -> Result<(), AllocError>
        ensures keeps { Keeps (S.seen store.old) (S.seen store.new) }
        ensures adds { IfOk result (λ _. AddsSteps (S.seen store.old) (S.seen store.new) code.old code.new) }
        ensures resolved { IfOk result (λ _. (all : List Pred) → IsNumbering self.now.numbers all →
            AreResolved all code.old.steps.items → AreResolved all code.new.steps.items) }
        ensures right { IfOk result (λ _. (all : List Pred) → IsNumbering self.now.numbers all →
            IsAcyclic (bindings (S.seen store.old).now.state) →
            AddsPlaces all (placing (S.seen store.old) code.old callables.old)
            (placing (S.seen store.new) code.new callables.new) name.now arity) }
        ensures has { IfOk result (λ _. IsAcyclic (bindings (S.seen store.old).now.state) →
            HasPlaces (S.seen store.old).names (S.seen store.new).names callables.old callables.new name.now arity) }
    {
        let number = number_of(store, name)?;
        let goal = goal_by_name(self.alloc, name, arity)?;
        let shape = Shape {
            first_slot: 0,
            slots: arity,
        };
        let place = self.add_goal(code, store, &goal, shape, true)?;
        if let Some(number) = number {
            callables.add(number, u64::from(arity), place)?;
        }
        Ok(())
    }
}

/// The number that a store has for a name, where no term holds itself.
fn number_of<S: StateStore>(store: &mut S, name: &str) -> Result<Option<u64>, AllocError>
    ensures stays { Stays (S.seen store.old) (S.seen store.new) }
    ensures is { IfOk result (λ number. IsAcyclic (bindings (S.seen store.old).now.state) →
        (n : ℕ) × (number ≡ Some n) × IsName (S.seen store.new) n name.now) }
{
    let atom = store.put_atom(name)?;
    match store.look(atom) {
        Cell::Atom(number) => Ok(Some(number)),
        _ => Ok(None),
    }
}

/// The names that are called by a goal, each with its number of arguments.
fn callable_names<'n>(
    alloc: Global,
    preds: &'n [CorePred],
    helpers: &'n [CorePred],
) -> Result<Vec<(&'n str, u32)>, AllocError>
    ensures { IfOk result (λ made. AreNamed (preds.now ++ helpers.now) (rows_shown made.items)) }
{
    let mut names = predicate_names(alloc)?;
    names.extend_from_slice(&CONSTRAINT_NAMES)?;
    names.extend_from_slice(&SOLVE_NAMES)?;
    names.push(("catch", 3))?;
    for more in 0..8 {
        names.push(("call", more + 1))?;
    }
    push_called(&mut names, preds)?;
    push_called(&mut names, helpers)?;
    Ok(names)
}

/// Pushes the names of predicates that aren't quiet, and of no functions.
fn push_called<'n>(names: &mut Vec<(&'n str, u32)>, preds: &'n [CorePred]) -> Result<(), AllocError>
    ensures { IfOk result (λ _. rows_shown names.new.items ≡ rows_shown names.old.items ++ names_called preds.now) }
{
    for pred in preds {
        if !pred.function && !pred.quiet {
            names.push((pred.name.as_str(), pred.arity))?;
        }
    }
    Ok(())
}
