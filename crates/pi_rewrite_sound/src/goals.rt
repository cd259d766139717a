//! Which goals and expressions are built.
ghost use Rattle.std.specs.Prelude.{◌≡◌, ◌&&◌, Some};
ghost use Rattle.pi_syntax.specs.ExpTree.{exp_tree, call};
ghost use Rattle.pi_syntax.specs.ExpLists.{exps_of};
ghost use Rattle.pi_syntax.specs.Signature.{exp_count};
ghost use Rattle.pi_meaning.specs.OverNames.Texts.{iterated};
ghost use Rattle.pi_meaning.specs.OverNames.Forms.{assignment, form_of as form_in_names};
ghost use Rattle.pi_rewrite_slots.specs.Branches.{branches_in};
ghost use Rattle.pi_rewrite_sound.specs.Built as spec;

use crate::forms::{Form, form_of, is_count_all, is_find_all};
use crate::names::{is_built_function, is_built_predicate};
use crate::patterns::is_built_pattern;
use crate::terms::is_built_term;
use pi_syntax::Exp;

/// Whether an expression is built.
#[cycle(goal)]
#[tactic(auto, unfolding(pi_syntax::specs::ExpTree::exp_tree, crate::specs::Built::is_built_value))]
pub(crate) fn is_built_value(exp: &Exp) -> bool
    ensures { result ≡ spec.is_built_value (exp_tree exp.now) }
{
    match exp {
        Exp::Var(_) => true,
        Exp::Int(_) => true,
        Exp::Atom(_) => true,
        Exp::Str(_) => true,
        Exp::List(items, tail) => match tail {
            Some(tail) => are_built_values(items.as_slice()) & is_built_value(tail),
            None => are_built_values(items.as_slice()),
        },
        Exp::Array(items) => are_built_values(items.as_slice()),
        Exp::Call(name, args) => is_built_value_call(name.as_str(), args.as_slice()),
        Exp::Quote(inner) => is_built_term(inner),
        Exp::Index(of, places) => {
            is_built_value(of) & (are_built_values(places.as_slice()) & are_some(places.as_slice()))
        }
        Exp::Range(first, step, last) => match step {
            Some(step) => is_built_value(first) & (is_built_value(step) & is_built_value(last)),
            None => is_built_value(first) & is_built_value(last),
        },
        Exp::At(_, _) => false,
        Exp::Collect(_, item, units) => are_built_units(units.as_slice()) & is_built_value(item),
        Exp::And(_) => false,
        Exp::Or(_) => false,
        Exp::Arrow(_, _) => false,
        Exp::If(_, _) => false,
        Exp::Foreach(_, _) => false,
        Exp::While(_, _) => false,
        Exp::DoWhile(_, _) => false,
    }
}

/// Whether all of the expressions are built.
#[cycle(goal)]
fn are_built_values(exps: &[Exp]) -> bool
    ensures { result ≡ spec.are_built_values (exps_of exps.now) }
{
    for exp in exps {
        if !is_built_value(exp) {
            return false;
        }
    }
    true
}

/// Whether there is an expression with this number, counted from 0, and it is built.
#[cycle(goal)]
fn is_built_value_at(exps: &[Exp], i: usize) -> bool
    ensures { result ≡ spec.is_built_value_at (exps_of exps.now) i }
{
    if i < exps.len() {
        is_built_value(&exps[i])
    } else {
        false
    }
}

/// Whether there is an expression with this number, counted from 0, and it is built as a goal.
#[cycle(goal)]
fn is_built_goal_at(exps: &[Exp], i: usize) -> bool
    ensures { result ≡ spec.is_built_goal_at (exps_of exps.now) i }
{
    if i < exps.len() {
        is_built_goal(&exps[i])
    } else {
        false
    }
}

/// Whether a call is built as an expression.
#[cycle(goal)]
fn is_built_value_call(name: &str, args: &[Exp]) -> bool
    ensures { result ≡ spec.is_built_value_call name.now (exp_count (exps_of args.now)) (spec.are_built_values (exps_of args.now))
        (spec.is_built_value_at (exps_of args.now)) (spec.is_built_goal_at (exps_of args.now)) }
{
    let count = args.len();
    if is_find_all(name, count) {
        return is_built_value_at(args, 0) & is_built_goal_at(args, 1);
    }
    if is_count_all(name, count) {
        return is_built_goal_at(args, 0);
    }
    are_built_values(args) & is_built_function(name, count)
}

/// Whether a call is built as a goal.
#[cycle(goal)]
fn is_built_call(name: &str, args: &[Exp]) -> bool
    ensures { result ≡ spec.is_built_form (form_in_names name.now (exp_count (exps_of args.now))) name.now
        (exp_count (exps_of args.now)) (spec.are_built_values (exps_of args.now)) (spec.is_built_value_at (exps_of args.now))
        (spec.is_built_goal_at (exps_of args.now)) && spec.is_assigned (form_in_names name.now (exp_count (exps_of args.now)))
        (exps_of args.now) }
{
    let count = args.len();
    match form_of(name, count) {
        Some(form) => match form {
            Form::Negation => is_built_goal_at(args, 0),
            Form::Once => is_built_goal_at(args, 0),
            Form::Assignment => is_built_value_at(args, 1) & is_assigned(args),
            Form::Catch => {
                is_built_goal_at(args, 0) & (is_built_value_at(args, 1) & is_built_goal_at(args, 2))
            }
            Form::ByTerm => are_built_values(args),
            Form::Membership => false,
        },
        None => are_built_values(args) & is_built_predicate(name, count),
    }
}

/// Whether a goal is built.
#[cycle(goal)]
#[tactic(auto, unfolding(pi_syntax::specs::ExpTree::exp_tree, crate::specs::Built::is_built_goal))]
pub fn is_built_goal(exp: &Exp) -> bool
    ensures { result ≡ spec.is_built_goal (exp_tree exp.now) }
{
    match exp {
        Exp::Atom(name) => is_built_atom(name.as_str()),
        Exp::Call(name, args) => is_built_call(name.as_str(), args.as_slice()),
        Exp::And(goals) => are_built_goals(goals.as_slice()),
        Exp::Or(branches) => are_built_branches(branches.as_slice()),
        Exp::If(branches, last) => match last {
            Some(last) => have_built_goals(branches.as_slice()) & is_built_goal(last),
            None => have_built_goals(branches.as_slice()),
        },
        Exp::Foreach(units, body) => are_built_units(units.as_slice()) & is_built_goal(body),
        Exp::While(test, body) => is_built_goal(test) & is_built_goal(body),
        Exp::DoWhile(body, test) => is_built_goal(body) & is_built_goal(test),
        _ => false,
    }
}

/// Whether all of the goals are built.
#[cycle(goal)]
fn are_built_goals(exps: &[Exp]) -> bool
    ensures { result ≡ spec.are_built_goals (exps_of exps.now) }
{
    for exp in exps {
        if !is_built_goal(exp) {
            return false;
        }
    }
    true
}

/// Whether all branches of a disjunction are built.
#[cycle(goal)]
fn are_built_branches(exps: &[Exp]) -> bool
    ensures { result ≡ spec.are_built_branches (exps_of exps.now) }
{
    for exp in exps {
        if !is_built_branch(exp) {
            return false;
        }
    }
    true
}

/// Whether a branch of a disjunction is built, which may have an arrow.
#[cycle(goal)]
#[tactic(auto, unfolding(pi_syntax::specs::ExpTree::exp_tree, crate::specs::Built::is_built_branch))]
fn is_built_branch(exp: &Exp) -> bool
    ensures { result ≡ spec.is_built_branch (exp_tree exp.now) }
{
    match exp {
        Exp::Arrow(test, body) => is_built_goal(test) & is_built_goal(body),
        Exp::Atom(name) => is_built_atom(name.as_str()),
        Exp::Call(name, args) => is_built_call(name.as_str(), args.as_slice()),
        Exp::And(goals) => are_built_goals(goals.as_slice()),
        Exp::Or(branches) => are_built_branches(branches.as_slice()),
        Exp::If(branches, last) => match last {
            Some(last) => have_built_goals(branches.as_slice()) & is_built_goal(last),
            None => have_built_goals(branches.as_slice()),
        },
        Exp::Foreach(units, body) => are_built_units(units.as_slice()) & is_built_goal(body),
        Exp::While(test, body) => is_built_goal(test) & is_built_goal(body),
        Exp::DoWhile(body, test) => is_built_goal(body) & is_built_goal(test),
        _ => false,
    }
}

/// Whether all conditions and their bodies are built.
#[cycle(goal)]
fn have_built_goals(branches: &[(Exp, Exp)]) -> bool
    ensures { result ≡ spec.have_built_goals (branches_in branches.now) }
{
    for branch in branches {
        if !is_built_goal(&branch.0) {
            return false;
        }
        if !is_built_goal(&branch.1) {
            return false;
        }
    }
    true
}

/// Whether all iterators and tests of a loop are built.
#[cycle(goal)]
fn are_built_units(units: &[Exp]) -> bool
    ensures { result ≡ spec.are_built_units (exps_of units.now) }
{
    for unit in units {
        if !is_built_unit(unit) {
            return false;
        }
    }
    true
}

/// Whether an iterator or a test is built.
#[cycle(goal)]
#[tactic(auto, unfolding(pi_syntax::specs::ExpTree::exp_tree))]
fn is_built_unit(unit: &Exp) -> bool
    ensures { result ≡ spec.is_built_unit (iterated (exp_tree unit.now)) (spec.is_built_collection (exp_tree unit.now))
        (spec.is_built_goal (exp_tree unit.now)) }
{
    match unit {
        Exp::Call(name, args) => is_built_unit_call(name.as_str(), args.as_slice()),
        _ => is_built_goal(unit),
    }
}

/// Whether a call is built as an iterator, of a pattern and of what it goes over, or else as a test.
#[cycle(goal)]
fn is_built_unit_call(name: &str, args: &[Exp]) -> bool
    ensures { result ≡ spec.is_built_unit (iterated (call name.now (exps_of args.now)))
        (spec.is_built_value_at (exps_of args.now) 1) (spec.is_built_goal (call name.now (exps_of args.now))) }
{
    if (args.len() == 2) & (name == "in") {
        return is_built_pattern(&args[0]) & is_built_value_at(args, 1);
    }
    is_built_call(name, args)
}

/// Whether an atom is built as a goal: `true`, `fail` or the call of a predicate without arguments.
fn is_built_atom(name: &str) -> bool
    ensures { result ≡ spec.is_built_atom name.now }
{
    (name == "true") | ((name == "fail") | is_built_predicate(name, 0))
}

/// Whether there is an expression.
fn are_some(exps: &[Exp]) -> bool
    ensures { result ≡ spec.are_some (exps_of exps.now) }
{
    !exps.is_empty()
}

/// Whether what stands first is a variable, as what is assigned is.
fn is_assigned(args: &[Exp]) -> bool
    ensures { result ≡ spec.is_assigned (Some assignment) (exps_of args.now) }
{
    if args.is_empty() {
        return false;
    }
    is_variable(&args[0])
}

#[tactic(auto, unfolding(pi_syntax::specs::ExpTree::exp_tree))]
fn is_variable(exp: &Exp) -> bool
    ensures { result ≡ spec.is_variable (exp_tree exp.now) }
{
    match exp {
        Exp::Var(_) => true,
        _ => false,
    }
}
