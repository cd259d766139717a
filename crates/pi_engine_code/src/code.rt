//! The tables of a program and a goal, and how they are looked up.
ghost use Rattle.std.specs.Prelude.{◌≡◌, ℕ, ◌+◌, ◌-◌, ◌<◌, ◌≤◌, take, drop, length, [], Option, Some, map, slice_get, slice_index_or, option_copied};
ghost use Rattle.pi_terms.specs.Tree.{Tree};
ghost use Rattle.pi_core.specs.GoalTree.{GoalTree, nodes, child_count};
ghost use Rattle.pi_core.specs.GoalCells.{cell_of};
ghost use Rattle.pi_core.specs.CoreTree.{ClauseTree, PredTree, pattern_trees, pred_tree};
ghost use Rattle.pi_engine_code.specs.Callables.{place_in};
ghost use Rattle.pi_engine_code.specs.Code.{tables_of, preds_of, step_cell, StandsAt, child_place};

use crate::callables::Callables;
use crate::fact_keys::FactKeys;
use pi_constraints::Ref;
use pi_core::{CorePred, CorePreds, CoreProgram, Pattern};
use pi_lib_builtin::{Function, Predicate as BuiltInPredicate};
use pi_lib_constraints::{ConstraintGoal, DomainFunction};
use pi_terms::Text;

/// Where the term of a goal comes from.
#[derive(Clone, Copy)]
pub enum Operand {
    /// What a slot of the clause holds.
    Slot(u32),
    /// A ground term, which was put into the store at the start.
    Known(Ref),
    /// A compound with slots in it: its cells in prefix order, from the first part to before the end.
    Made(u32, u32),
}

/// A cell of a compound with slots in it.
#[derive(Clone, Copy)]
pub enum Part {
    Slot(u32),
    Known(Ref),
    /// The place of the name among the names, and the number of arguments.
    Compound(u32, u32),
}

/// A goal's node with its names resolved.
#[derive(Clone, Copy)]
pub enum Node {
    True,
    Fail,
    Tick,
    /// So many child goals one after the other.
    Seq(u32),
    /// So many child goals as alternatives.
    Alt(u32),
    If,
    Not,
    Once,
    /// The slot that is collected, and the slot that takes the list.
    Collect(u32, u32),
    /// The slot that takes the number.
    Count(u32),
    /// The ball that is caught.
    Catch(Operand),
    Unify(Operand, Operand),
    Throw(Operand),
    /// The number of the predicate, and where its arguments begin among the operands.
    Call(u32, u32),
    /// The same of a function, and the slot that takes its value.
    Apply(u32, u32, u32),
    /// Behind a function's body: its value, which ends the call.
    Value(Operand),
    /// A call of a built-in predicate, which binds nothing: the place of its name among the names, where its arguments begin
    /// among the operands, and how many they are.
    BuiltIn(BuiltInPredicate, u32, u32, u32),
    /// The same of a built-in function, and the slot that takes its value.
    BuiltInValue(Function, u32, u32, u32, u32),
    /// A call of a goal of constraints: the place of its name among the names, where its arguments begin among the operands, and
    /// how many they are.
    Constrain(ConstraintGoal, u32, u32, u32),
    /// The same of a function of domains, and the slot that takes its value.
    DomainValue(DomainFunction, u32, u32, u32, u32),
    /// A call of `solve`: the place of its name among the names, where its arguments begin among the operands, and how many they
    /// are.
    Solve(u32, u32, u32),
    /// `call` of a term with more arguments: where these operands begin, and how many they are.
    CallTerm(u32, u32),
}

/// A node at its place in the one table of all goals. A goal's child goals follow it, one behind the other.
#[derive(Clone, Copy)]
pub struct Step {
    pub node: Node,
    /// How many steps the goal takes that begins here: what follows it in a sequence comes so much later.
    pub size: u32,
    /// Where the slots of the goal's clause begin in a block: behind the arguments of the call.
    pub first_slot: u32,
    /// How many slots the clause has.
    pub slots: u32,
    /// Nothing is left to do behind this goal in the body, whose slots are done with.
    pub is_last: bool,
}

/// What an argument of a call has to be.
#[derive(Clone, Copy)]
pub enum HeadTest {
    Slot(u32),
    Int(i128),
    Atom(u64),
    /// A pattern with patterns in it, which is looked up in the program.
    Deep,
}

/// A rule. The slots of its block come behind the arguments of the call.
#[derive(Clone, Copy)]
pub struct Rule {
    /// Where the tests of its head begin, one for each argument.
    pub tests: u32,
    /// One of the tests is `Deep`.
    pub is_deep: bool,
    pub slots: u32,
    /// The rules behind it stay as alternatives where it applies.
    pub leaves_others: bool,
    /// The place of its condition; None for one that is `true`.
    pub guard: Option<u32>,
    /// The place of its body, and how many goals it is: behind a function's body stands its value.
    pub body: u32,
    pub goals: u32,
}

/// A predicate or a function: its number of arguments, and its rules from the first to before the end.
#[derive(Clone, Copy)]
pub struct Predicate {
    pub arity: u32,
    pub first: u32,
    pub end: u32,
    /// Its calls count no Tick.
    pub is_quiet: bool,
    /// Its clauses are facts.
    pub is_facts: bool,
}

/// A program and a goal in flat tables, with each call resolved. The patterns of heads stay where they are in the
/// program.
pub struct Code<'p> {
    pub core: &'p CoreProgram,
    /// The predicates that were made for the goal alone, behind those of the program.
    pub helpers: CorePreds,
    pub steps: Vec<Step>,
    pub operands: Vec<Operand>,
    pub parts: Vec<Part>,
    pub names: Vec<Text>,
    pub tests: Vec<HeadTest>,
    pub rules: Vec<Rule>,
    pub predicates: Vec<Predicate>,
    /// Where the goals stand by which `call` runs what a term names.
    pub callables: Callables,
    /// By which keys facts are found.
    pub keys: FactKeys,
}

// By hand, so that letting one go is a call and not its parts at each way out.
impl<'p> Drop for Code<'p> {
    fn drop(self) {
        let Code {
            core: _,
            helpers: _,
            steps: _,
            operands: _,
            parts: _,
            names: _,
            tests: _,
            rules: _,
            predicates: _,
            callables: _,
            keys: _,
        } = self;
    }
}

impl Code<'_> {
    /// The step at a place.
    pub fn step(&self, place: u32) -> Step
        ensures is { (s : Step) → slice_get self.now.steps.items place ≡ Some s → result ≡ s }
        ensures shows { (terms : ℕ → Option Tree) (g : GoalTree) → StandsAt (tables_of terms self.now) self.now.steps.items place g →
            step_cell (tables_of terms self.now) result ≡ cell_of g }
    {
        match self.step_at(place) {
            Some(step) => step,
            None => Step {
                node: Node::Fail,
                size: 1,
                first_slot: 0,
                slots: 0,
                is_last: true,
            },
        }
    }

    fn step_at(&self, place: u32) -> Option<Step>
        ensures { result ≡ slice_get self.now.steps.items place }
    {
        self.steps.get(place as usize).copied()
    }

    /// The step at a place as it stands in the table, where there is one.
    pub fn step_there(&self, place: u32) -> Option<&Step>
        ensures { option_copied result ≡ slice_get self.now.steps.items place }
    {
        self.steps.get(place as usize)
    }

    /// The place behind the goal at a place.
    pub fn behind(&self, place: u32) -> u32
        ensures { (terms : ℕ → Option Tree) (g : GoalTree) → StandsAt (tables_of terms self.now) self.now.steps.items place g →
            result ≡ place + nodes g }
    {
        place.saturating_add(self.step(place).size)
    }

    /// Where the child goal with this number begins, counted from 0, of the goal at a place.
    pub fn child(&self, place: u32, number: u32) -> u32
        ensures { (terms : ℕ → Option Tree) (g : GoalTree) → StandsAt (tables_of terms self.now) self.now.steps.items place g →
            number < child_count g → result ≡ child_place g place number }
    {
        let mut at = place.saturating_add(1);
        for _k in 0..number {
            at = self.behind(at);
        }
        at
    }

    pub fn operand(&self, i: usize) -> Option<Operand>
        ensures { result ≡ slice_get self.now.operands.items i }
    {
        self.operands.get(i).copied()
    }

    pub fn part(&self, i: u32) -> Option<Part>
        ensures { result ≡ slice_get self.now.parts.items i }
    {
        self.parts.get(i as usize).copied()
    }

    pub fn name(&self, i: u32) -> &str
        ensures { result.now ≡ slice_index_or self.now.names.items i [] }
    {
        self.names.get(i as usize).map_or("", |name| name.as_str())
    }

    pub fn predicate(&self, number: u32) -> Predicate
        ensures { (p : Predicate) → slice_get self.now.predicates.items number ≡ Some p → result ≡ p }
    {
        match self.predicates.get(number as usize) {
            Some(predicate) => *predicate,
            None => Predicate {
                arity: 0,
                first: 0,
                end: 0,
                is_quiet: false,
                is_facts: false,
            },
        }
    }

    /// The predicate with this number as it stands in the table, where there is one.
    pub fn predicate_there(&self, number: u32) -> Option<&Predicate>
        ensures { option_copied result ≡ slice_get self.now.predicates.items number }
    {
        self.predicates.get(number as usize)
    }

    /// The rule with this number.
    pub fn rule(&self, number: u32) -> Option<&Rule>
        ensures { option_copied result ≡ slice_get self.now.rules.items number }
    {
        self.rules.get(number as usize)
    }

    /// So many tests from one on: those of a rule's head.
    pub fn tests_of(&self, first: u32, count: u32) -> &[HeadTest]
        ensures within { first + count ≤ length self.now.tests.items → result.now ≡ take count (drop first self.now.tests.items) }
        ensures none { count ≡ 0 → result.now ≡ [] }
    {
        let first = first as usize;
        self.tests
            .get(first..first.saturating_add(count as usize))
            .unwrap_or(&[])
    }

    /// The test of a head whose tests begin at one, with its number among them.
    pub fn test(&self, first: u32, number: u32) -> Option<HeadTest>
        ensures { result ≡ slice_get self.now.tests.items (first + number) }
    {
        let place = (first as usize).saturating_add(number as usize);
        self.tests.get(place).copied()
    }

    /// The place of the goal by which the name with this number is called with so many arguments, where there is one. All
    /// slots that it has are its arguments.
    pub fn goal_named(&self, name: u64, arity: u64) -> Option<u32>
        ensures { result ≡ place_in self.now.callables name arity }
    {
        self.callables.place(name, arity)
    }

    /// The predicate with this number as it stands in the program or among the goal's own.
    pub fn source(&self, number: u32) -> Option<&CorePred>
        ensures { option_copied result ≡ slice_get (preds_of self.now) number }
    {
        let preds = self.core.preds.as_slice();
        let number = number as usize;
        match number.checked_sub(preds.len()) {
            None => preds.get(number),
            Some(helper) => self.helpers.as_slice().get(helper),
        }
    }

    /// The patterns of the head of a predicate's rule.
    pub fn head(&self, predicate: u32, rule: u32) -> &[Pattern]
        ensures { (p : Predicate) (pred : PredTree) (c : ClauseTree) → slice_get self.now.predicates.items predicate ≡ Some p →
            slice_get (map pred_tree (preds_of self.now)) predicate ≡ Some pred → slice_get pred.clauses (rule - p.first) ≡ Some c →
            pattern_trees result.now ≡ c.head }
    {
        let clause = rule.saturating_sub(self.predicate(predicate).first);
        match self.source(predicate) {
            None => &[],
            Some(source) => match source.clauses.as_slice().get(clause as usize) {
                None => &[],
                Some(clause) => clause.head.as_slice(),
            },
        }
    }
}
