//! Predicates and their rules in tables.
ghost use Rattle.std.specs.Prelude.{◌≡◌, ◌≢◌, ◌+◌, List, false, length, map, is_none, is_some, IfOk};
ghost use Rattle.pi_constraints.specs.State.{bindings};
ghost use Rattle.pi_constraints.specs.Value.{IsAcyclic};
ghost use Rattle.pi_constraints.specs.Store.{Keeps, Stays};
ghost use Rattle.pi_core.specs.GoalTree.{nodes};
ghost use Rattle.pi_core.specs.CoreTree.{index_of, pattern_tree, pattern_trees, clause_tree, pred_tree};
ghost use Rattle.pi_core.specs.declared.core_program.CorePred.{CorePred as Pred};
ghost use Rattle.pi_engine_code.specs.declared.code.HeadTest.TheVariants.{Deep};
ghost use Rattle.pi_core.specs.CoreTree.{leaves_others};
ghost use Rattle.pi_engine_code.specs.LaidRules.{IsTestOf, tables_with};
ghost use Rattle.pi_engine_code.specs.Numbers.{IsNumbering};
ghost use Rattle.pi_engine_code.specs.Laid.{Adds, AddsSteps, IsLaid, AreResolved, layout_in};
ghost use Rattle.pi_engine_code.specs.LaidRules.{AddsRule, AddsRules, TestsAt, IsGuardLaid, IsBodyEnd, IsRuleLaid, IsPredicateLaid, PredicatesAt};

use super::{Builder, Shape, short};
use crate::code::{Code, HeadTest, Predicate, Rule};
use pi_constraints::{Cell, StateStore};
use pi_core::{CoreClause, CoreGoal, CorePred, GoalNode, Pattern};
use pi_syntax::Decl;
use std::alloc::AllocError;

impl Builder<'_> {
    /// Adds predicates, with their rules.
    pub(super) fn add_predicates<S: StateStore>(
        &self,
        code: &mut Code<'_>,
        store: &mut S,
        preds: &[CorePred],
    ) -> Result<(), AllocError>
        ensures keeps { Keeps (S.seen store.old) (S.seen store.new) }
        ensures adds { IfOk result (λ _. Adds (S.seen store.old) (S.seen store.new) code.old code.new) }
        ensures long { IfOk result (λ _. length code.new.predicates.items ≡ length code.old.predicates.items + length preds.now) }
        ensures laid { IfOk result (λ _. (all : List Pred) → IsNumbering self.now.numbers all →
            IsAcyclic (bindings (S.seen store.old).now.state) →
            PredicatesAt (tables_with all (S.seen store.new) code.new)
            (length code.old.predicates.items) (map pred_tree preds.now)) }
        ensures resolved { IfOk result (λ _. (all : List Pred) → IsNumbering self.now.numbers all →
            AreResolved all code.old.steps.items → AreResolved all code.new.steps.items) }
    {
        for pred in preds {
            let predicate = self.add_rules(code, store, pred)?;
            code.predicates.push(predicate)?;
        }
        Ok(())
    }

    /// Adds the rules of a predicate.
    fn add_rules<S: StateStore>(
        &self,
        code: &mut Code<'_>,
        store: &mut S,
        pred: &CorePred,
    ) -> Result<Predicate, AllocError>
        ensures keeps { Keeps (S.seen store.old) (S.seen store.new) }
        ensures adds { IfOk result (λ _. AddsRules (S.seen store.old) (S.seen store.new) code.old code.new) }
        ensures laid { IfOk result (λ predicate. (all : List Pred) → IsNumbering self.now.numbers all →
            IsAcyclic (bindings (S.seen store.old).now.state) →
            IsPredicateLaid (tables_with all (S.seen store.new) code.new)
            (pred_tree pred.now) predicate) }
        ensures resolved { IfOk result (λ _. (all : List Pred) → IsNumbering self.now.numbers all →
            AreResolved all code.old.steps.items → AreResolved all code.new.steps.items) }
    {
        let first = short(code.rules.len())?;
        for clause in pred.clauses.as_slice() {
            let rule = self.rule_of(code, store, clause, pred)?;
            code.rules.push(rule)?;
        }
        Ok(Predicate {
            arity: pred.arity,
            first,
            end: short(code.rules.len())?,
            is_quiet: pred.quiet,
            is_facts: has_index(&pred.decl),
        })
    }

    fn rule_of<S: StateStore>(
        &self,
        code: &mut Code<'_>,
        store: &mut S,
        clause: &CoreClause,
        pred: &CorePred,
    ) -> Result<Rule, AllocError>
        ensures keeps { Keeps (S.seen store.old) (S.seen store.new) }
        ensures adds { IfOk result (λ _. AddsRule (S.seen store.old) (S.seen store.new) code.old code.new) }
        ensures laid { IfOk result (λ rule. (all : List Pred) → IsNumbering self.now.numbers all →
            IsAcyclic (bindings (S.seen store.old).now.state) →
            IsRuleLaid (tables_with all (S.seen store.new) code.new) (pred_tree pred.now) (clause_tree clause.now) rule) }
        ensures resolved { IfOk result (λ _. (all : List Pred) → IsNumbering self.now.numbers all →
            AreResolved all code.old.steps.items → AreResolved all code.new.steps.items) }
    {
        let shape = Shape {
            first_slot: pred.arity,
            slots: clause.slots,
        };
        let tests = short(code.tests.len())?;
        let is_deep = add_tests(code, store, &clause.head)?;
        let guard = self.guard_of(code, store, &clause.guard, shape)?;
        let (body, goals) = self.add_body(code, store, clause, shape)?;
        Ok(Rule {
            tests,
            is_deep,
            slots: clause.slots,
            leaves_others: leaves_others(clause, pred),
            guard,
            body,
            goals,
        })
    }

    /// Adds a clause's body and behind it a function's value, and answers its place and how many goals it is.
    fn add_body<S: StateStore>(
        &self,
        code: &mut Code<'_>,
        store: &mut S,
        clause: &CoreClause,
        shape: Shape,
    ) -> Result<(u32, u32), AllocError>
        ensures keeps { Keeps (S.seen store.old) (S.seen store.new) }
        ensures adds { IfOk result (λ _. AddsSteps (S.seen store.old) (S.seen store.new) code.old code.new) }
        ensures body { IfOk result (λ made. (all : List Pred) → IsNumbering self.now.numbers all →
            IsLaid (layout_in all (S.seen store.new) code.new shape) made.0
            clause.now.body (is_none clause.now.value)) }
        ensures behind { IfOk result (λ made. (all : List Pred) → IsNumbering self.now.numbers all →
            IsBodyEnd (layout_in all (S.seen store.new) code.new shape)
            (made.0 + nodes clause.now.body) made.1 clause.now.value) }
        ensures resolved { IfOk result (λ _. (all : List Pred) → IsNumbering self.now.numbers all →
            AreResolved all code.old.steps.items → AreResolved all code.new.steps.items) }
    {
        match &clause.value {
            None => {
                let body = self.add_goal(code, store, &clause.body, shape, true)?;
                Ok((body, 1))
            }
            Some(value) => {
                let body = self.add_goal(code, store, &clause.body, shape, false)?;
                self.add_value(code, store, value, shape)?;
                Ok((body, 2))
            }
        }
    }

    /// The place of a condition; None for one that is `true`.
    fn guard_of<S: StateStore>(
        &self,
        code: &mut Code<'_>,
        store: &mut S,
        guard: &CoreGoal,
        shape: Shape,
    ) -> Result<Option<u32>, AllocError>
        ensures keeps { Keeps (S.seen store.old) (S.seen store.new) }
        ensures adds { IfOk result (λ _. AddsSteps (S.seen store.old) (S.seen store.new) code.old code.new) }
        ensures laid { IfOk result (λ place. (all : List Pred) → IsNumbering self.now.numbers all →
            IsGuardLaid (layout_in all (S.seen store.new) code.new shape)
            place guard.now) }
        ensures resolved { IfOk result (λ _. (all : List Pred) → IsNumbering self.now.numbers all →
            AreResolved all code.old.steps.items → AreResolved all code.new.steps.items) }
    {
        match guard.node(0) {
            GoalNode::True => Ok(None),
            _ => {
                let place = self.add_goal(code, store, guard, shape, false)?;
                Ok(Some(place))
            }
        }
    }
}

/// Whether the rules behind one that applies stay as alternatives: those of an action rule and of a function's rule don't.
fn leaves_others(clause: &CoreClause, pred: &CorePred) -> bool
    ensures { result ≡ leaves_others pred.now.function (clause_tree clause.now) }
{
    clause.back && !pred.function && clause.watches.as_slice().is_empty()
}

/// Whether clauses behind a declaration are facts.
fn has_index(decl: &Decl) -> bool
    ensures { result ≡ is_some (index_of decl.now) }
{
    match decl {
        Decl::Index(_) => true,
        Decl::Plain | Decl::Import(_) => false,
    }
}

/// Adds the tests of a head, and answers whether there is a deep one.
fn add_tests<S: StateStore>(
    code: &mut Code<'_>,
    store: &mut S,
    head: &[Pattern],
) -> Result<bool, AllocError>
    ensures stays { Stays (S.seen store.old) (S.seen store.new) }
    ensures adds { IfOk result (λ _. AddsRule (S.seen store.old) (S.seen store.new) code.old code.new) }
    ensures steps { code.new.steps ≡ code.old.steps }
    ensures tests { IfOk result (λ is_deep. IsAcyclic (bindings (S.seen store.old).now.state) →
        TestsAt (S.seen store.new).names code.new.tests.items is_deep (length code.old.tests.items) (pattern_trees head.now)) }
{
    let mut is_deep = false;
    for pattern in head {
        let test = test_of(store, pattern)?;
        is_deep |= is_deep_test(test);
        code.tests.push(test)?;
    }
    Ok(is_deep)
}

#[tactic(auto, unfolding(pi_core::specs::CoreTree::pattern_tree))]
fn test_of<S: StateStore>(store: &mut S, pattern: &Pattern) -> Result<HeadTest, AllocError>
    ensures stays { Stays (S.seen store.old) (S.seen store.new) }
    ensures is { IfOk result (λ test. IsAcyclic (bindings (S.seen store.old).now.state) →
        IsTestOf (S.seen store.new).names (pattern_tree pattern.now) test) }
{
    match pattern {
        Pattern::Slot(k) => Ok(HeadTest::Slot(*k)),
        Pattern::Int(n) => Ok(HeadTest::Int(*n)),
        Pattern::Atom(name) => {
            let atom = store.put_atom(name.as_str())?;
            match store.look(atom) {
                Cell::Atom(number) => Ok(HeadTest::Atom(number)),
                _ => Ok(HeadTest::Deep),
            }
        }
        Pattern::Comp(_, _) | Pattern::Named(_, _) => Ok(HeadTest::Deep),
    }
}

fn is_deep_test(test: HeadTest) -> bool
    ensures { result ≡ false → test ≢ Deep }
{
    match test {
        HeadTest::Deep => true,
        HeadTest::Slot(_) | HeadTest::Int(_) | HeadTest::Atom(_) => false,
    }
}
