//! The names that goals and expressions call, in the order of the text.
ghost use Rattle.std.specs.Prelude.{◌≡◌, ◌∷◌, [], true, IfOk, MatchOption};
ghost use Rattle.pi_syntax.specs.ExpTree.{exp_tree};
ghost use Rattle.pi_syntax.specs.ProgramTree.{written_clause};
ghost use Rattle.pi_prog_clauses.specs.Calls.{is_planner_call, goal_calls, node_calls, calls_among};
ghost use Rattle.pi_prog_clauses.specs.Called.{named_by, shown_calls, calls_ahead, calls_of_goal_form, calls_of_expression_form, calls_of_operand_form, calls_of_form};
ghost use Rattle.pi_prog_clauses.specs.Form.{shown_form};
ghost use Rattle.pi_prog_clauses.specs.Places.{goal, placed, clause_placed};
ghost use Rattle.pi_prog_clauses.specs.Walk.{shown_place, shown_node};

use crate::nodes::form::Form;
use crate::nodes::operators::{is_among, is_boolean_call};
use crate::nodes::place::Place;
use crate::nodes::walk::{Node, Walk};
use pi_syntax::{Clause, Exp, is_form};
use std::alloc::{AllocError, Global};

/// A name with a number of arguments, called as a function's or as a predicate's.
#[derive(Clone, Copy, PartialEq, Eq, PartialOrd, Ord)]
pub struct Called<'a> {
    pub name: &'a str,
    pub arity: usize,
    pub is_function: bool,
}

/// The predicates and functions that search for plans. A User's Guide to Picat, 'The planner Module'.
const PLANNERS: [&str; 2] = ["plan", "best_plan"];

/// The predicates that a planner call calls behind itself. A User's Guide to Picat, 'The planner Module'.
const FINAL: Called<'static> = Called {
    name: "final",
    arity: 1,
    is_function: false,
};

const ACTION: Called<'static> = Called {
    name: "action",
    arity: 4,
    is_function: false,
};

/// What a node calls.
#[derive(Clone, Copy)]
enum NodeCalls<'a> {
    Nothing,
    One(Called<'a>),
    /// A planner's predicate, and those that it calls.
    Planner(Called<'a>),
}

/// What is left of the last planner call.
#[derive(Clone, Copy)]
enum Pending {
    Nothing,
    Final,
    Action,
}

/// The calls that nodes make, from the first.
#[derive(Drop)]
pub(crate) struct Calls<'a> {
    pending: Pending,
    walk: Walk<'a>,
}

impl<'a> Calls<'a> {
    /// The calls of a clause.
    pub(crate) fn of_clause(alloc: Global, clause: &'a Clause) -> Result<Calls<'a>, AllocError>
        ensures { IfOk result (λ calls. calls_ahead calls ≡ calls_among (clause_placed (written_clause clause.now))) }
    {
        let walk = Walk::of_clause(alloc, clause)?;
        Ok(Calls {
            pending: Pending::Nothing,
            walk,
        })
    }

    /// The calls of a goal.
    pub(crate) fn of_goal(alloc: Global, query: &'a Exp) -> Result<Calls<'a>, AllocError>
        ensures { IfOk result (λ calls. calls_ahead calls ≡ calls_among (placed (goal true) (exp_tree query.now))) }
    {
        let walk = Walk::of_goal(alloc, query)?;
        Ok(Calls {
            pending: Pending::Nothing,
            walk,
        })
    }

    /// The first call ahead, of which the others stay ahead.
    pub(crate) fn next(&mut self) -> Result<Option<Called<'a>>, AllocError>
        ensures { IfOk result (λ next. MatchOption next (calls_ahead self.old ≡ [])
            (λ called. calls_ahead self.old ≡ named_by called ∷ calls_ahead self.new)) }
    {
        match self.pending {
            Pending::Final => {
                self.pending = Pending::Action;
                return Ok(Some(FINAL));
            }
            Pending::Action => {
                self.pending = Pending::Nothing;
                return Ok(Some(ACTION));
            }
            Pending::Nothing => {}
        }
        while let Some(node) = self.walk.next()? {
            match calls_at(node) {
                NodeCalls::Nothing => {}
                NodeCalls::One(called) => return Ok(Some(called)),
                NodeCalls::Planner(called) => {
                    self.pending = Pending::Final;
                    return Ok(Some(called));
                }
            }
        }
        Ok(None)
    }
}

fn calls_at(node: Node<'_>) -> NodeCalls<'_>
    ensures { shown_calls result ≡ node_calls (shown_node node.entry) }
{
    calls_of_form(node.place, Form::of(node.exp))
}

fn calls_of_form(place: Place, form: Form<'_>) -> NodeCalls<'_>
    ensures { shown_calls result ≡ calls_of_form (shown_place place) (shown_form form.entry) }
{
    match place {
        Place::Goal { .. } => calls_of_goal(form),
        Place::Asked => calls_of_goal(form),
        Place::Iterator => calls_of_goal(form),
        Place::Expression => calls_of_expression(form),
        Place::Operand => calls_of_operand(form),
        Place::Term => NodeCalls::Nothing,
        Place::Pattern { .. } => NodeCalls::Nothing,
    }
}

fn calls_of_goal(form: Form<'_>) -> NodeCalls<'_>
    ensures { shown_calls result ≡ calls_of_goal_form (shown_form form.entry) }
{
    match form {
        Form::Atom(name) => goal_calls(name, 0),
        Form::Call { name, arity, .. } => goal_calls(name, arity),
        _ => NodeCalls::Nothing,
    }
}

/// An atom is a value.
fn calls_of_expression(form: Form<'_>) -> NodeCalls<'_>
    ensures { shown_calls result ≡ calls_of_expression_form (shown_form form.entry) }
{
    match form {
        Form::Call { name, arity, .. } => NodeCalls::One(Called {
            name,
            arity,
            is_function: true,
        }),
        _ => NodeCalls::Nothing,
    }
}

/// Between the signs of constraints a relation of constraints and such a sign are called as goals.
fn calls_of_operand(form: Form<'_>) -> NodeCalls<'_>
    ensures { shown_calls result ≡ calls_of_operand_form (shown_form form.entry) }
{
    match form {
        Form::Call { name, arity, .. } => NodeCalls::One(Called {
            name,
            arity,
            is_function: !is_boolean_call(name, arity),
        }),
        _ => NodeCalls::Nothing,
    }
}

/// What a goal with this name calls.
fn goal_calls(name: &str, arity: usize) -> NodeCalls<'_>
    ensures { shown_calls result ≡ goal_calls name.now arity }
{
    let called = Called {
        name,
        arity,
        is_function: false,
    };
    if is_form(name, arity) {
        NodeCalls::Nothing
    } else if is_planner_call(name, arity) {
        NodeCalls::Planner(called)
    } else {
        NodeCalls::One(called)
    }
}

/// Whether it calls `final/1` and `action/4` too. A User's Guide to Picat, 'The planner Module'.
fn is_planner_call(name: &str, arity: usize) -> bool
    ensures { result ≡ is_planner_call name.now arity }
{
    is_among(&PLANNERS, name) && 2 <= arity && arity <= 4
}
