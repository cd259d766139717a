//! The clause that a shape is. Trees move into it, and none is copied.
ghost use Rattle.std.specs.Prelude.{◌≡◌, ◌&&◌, ◌==◌, false, length, codes, option_map, IfOk};
ghost use Rattle.std.specs.Str.{bytes_eq};
ghost use Rattle.pi_syntax.specs.ExpLists.{exps_of};
ghost use Rattle.pi_syntax.specs.ExpTree.{exp_tree};
ghost use Rattle.pi_syntax.specs.ExpTree as tree;
ghost use Rattle.pi_syntax.specs.ProgramTree.{cond_between, events_between};
ghost use Rattle.pi_prog_clauses.specs.Shape as spec;
ghost use Rattle.pi_prog_clauses.specs.Formed.{ShowsHeaded, IsFormed, IsUnits, IsSplit, is_braces, exps_of_before};

mod apart;

use crate::clause::apart::take_apart;
use pi_syntax::{
    Apart, Between, Clause, Exp, Exps, FunctionBody, FunctionClause, RuleClause, Triggers,
};
use pi_terms::Text;
use std::alloc::{AllocError, Global};

/// A clause, with what it doesn't tell of its shape.
#[derive(Drop)]
pub struct FormedClause {
    pub clause: Clause,
    /// The arrow is `?=>`.
    pub is_open: bool,
    /// A last unit in braces stands on the left of the arrow.
    pub has_events: bool,
}

/// Head and value, or an expression that is no equation.
#[derive(Drop)]
pub(crate) enum Headed {
    Equation(Exp, Exp),
    Alone(Exp),
}

/// The first unit of a left side, and the others.
#[derive(Drop)]
pub(crate) struct Units {
    first: Exp,
    others: Exps,
}

/// The units behind a head: conditions, and the events where the last unit holds them.
#[derive(Drop)]
pub(crate) struct SplitUnits {
    conditions: Exps,
    events: Exps,
    has_events: bool,
}

/// The clause of an expression alone.
pub fn bare_clause(alloc: Global, exp: Exp) -> Result<FormedClause, AllocError>
    ensures { IfOk result (λ formed. IsFormed formed (spec.bare (exp_tree exp))) }
{
    match read_headed(exp) {
        Headed::Equation(head, value) => {
            let function = Box::new(
                alloc,
                FunctionClause {
                    head,
                    value,
                    behind: None,
                },
            )?;
            Ok(FormedClause {
                clause: Clause::Function(function),
                is_open: false,
                has_events: false,
            })
        }
        Headed::Alone(head) => {
            let head = Box::new(alloc, head)?;
            Ok(FormedClause {
                clause: Clause::Fact { head },
                is_open: false,
                has_events: false,
            })
        }
    }
}

/// The clause of two sides with an arrow between them.
pub fn ruled_clause(
    alloc: Global,
    left: Exp,
    back: bool,
    right: Exp,
) -> Result<FormedClause, AllocError>
    ensures { IfOk result (λ formed. IsFormed formed (spec.ruled (exp_tree left) back (exp_tree right))) }
{
    let units = units_in(alloc, left);
    match split(alloc, units.others) {
        Ok(split) => rule_of(alloc, units.first, split, back, right),
        Err(error) => {
            drop(units.first);
            drop(right);
            Err(error)
        }
    }
}

/// The rule of a head and the units behind it.
fn rule_of(
    alloc: Global,
    first: Exp,
    split: SplitUnits,
    back: bool,
    body: Exp,
) -> Result<FormedClause, AllocError>
    ensures { IfOk result (λ formed. (left : tree.ExpTree) → exp_tree first ≡ spec.first_unit (spec.units left) →
        IsSplit split (spec.other_units (spec.units left)) → IsFormed formed (spec.ruled left back (exp_tree body))) }
{
    let cond = condition(split.conditions);
    let events = split.events;
    let has_events = split.has_events;
    match read_headed(first) {
        Headed::Equation(head, value) => {
            drop(events);
            let behind = Box::new(alloc, FunctionBody { cond, body })?;
            let function = Box::new(
                alloc,
                FunctionClause {
                    head,
                    value,
                    behind: Some(behind),
                },
            )?;
            Ok(FormedClause {
                clause: Clause::Function(function),
                is_open: back,
                has_events,
            })
        }
        Headed::Alone(head) => {
            let between = between_of(alloc, cond, events)?;
            let rule = Box::new(
                alloc,
                RuleClause {
                    head,
                    between,
                    back,
                    body,
                },
            )?;
            Ok(FormedClause {
                clause: Clause::Rule(rule),
                is_open: back,
                has_events,
            })
        }
    }
}

/// What stands between a head and its arrow.
fn between_of(alloc: Global, cond: Option<Exp>, events: Exps) -> Result<Between, AllocError>
    ensures cond { IfOk result (λ made. cond_between made ≡ cond) }
    ensures events { IfOk result (λ made. events_between made ≡ events.items) }
{
    if !events.is_empty() {
        let triggers = Box::new(alloc, Triggers { cond, events })?;
        return Ok(Between::Triggers(triggers));
    }
    match cond {
        Some(cond) => Ok(Between::Condition(Box::new(alloc, cond)?)),
        None => Ok(Between::Nothing),
    }
}

/// Head and value, where the expression is an equation.
fn read_headed(exp: Exp) -> Headed
    ensures { ShowsHeaded result (exp_tree exp) }
{
    match take_apart(exp) {
        Apart::Call(name, args) => read_headed_call(name, args),
        Apart::Conjunction(units) => Headed::Alone(Exp::And(units)),
        Apart::Array(items) => Headed::Alone(Exp::Array(items)),
        Apart::Other(exp) => Headed::Alone(exp),
    }
}

fn read_headed_call(name: Text, args: Exps) -> Headed
    ensures { ShowsHeaded result (tree.call name (exps_of args.items)) }
{
    let mut args = args;
    if is_equation(&name, &args) {
        let value = args.remove(1);
        let head = args.remove(0);
        drop(name);
        drop(args);
        Headed::Equation(head, value)
    } else {
        Headed::Alone(Exp::Call(name, args))
    }
}

fn is_equation(name: &Text, args: &Exps) -> bool
    ensures { result ≡ (bytes_eq name.now (codes "=") && length args.now.items == 2) }
{
    (name.as_str() == "=") & (args.len() == 2)
}

/// The units of a left side.
fn units_in(alloc: Global, left: Exp) -> Units
    ensures { IsUnits result (spec.units (exp_tree left)) }
{
    match take_apart(left) {
        Apart::Conjunction(units) => units_of(alloc, units),
        Apart::Array(items) => one_unit(alloc, Exp::Array(items)),
        Apart::Call(name, args) => one_unit(alloc, Exp::Call(name, args)),
        Apart::Other(exp) => one_unit(alloc, exp),
    }
}

fn one_unit(alloc: Global, exp: Exp) -> Units
    ensures { IsUnits result (tree.one_exp (exp_tree exp)) }
{
    Units {
        first: exp,
        others: Exps::new(alloc),
    }
}

fn units_of(alloc: Global, units: Exps) -> Units
    ensures { IsUnits result (exps_of units.items) }
{
    let mut units = units;
    if units.is_empty() {
        return Units {
            first: Exp::And(units),
            others: Exps::new(alloc),
        };
    }
    let first = units.remove(0);
    Units {
        first,
        others: units,
    }
}

/// The conditions and the events.
fn split(alloc: Global, units: Exps) -> Result<SplitUnits, AllocError>
    ensures { IfOk result (λ split. IsSplit split (exps_of units.items)) }
{
    let mut units = units;
    match units.pop() {
        Some(last) => split_last(alloc, units, last),
        None => Ok(SplitUnits {
            conditions: units,
            events: Exps::new(alloc),
            has_events: false,
        }),
    }
}

/// The same with the last unit apart.
fn split_last(alloc: Global, units: Exps, last: Exp) -> Result<SplitUnits, AllocError>
    ensures { IfOk result (λ split. IsSplit split (exps_of_before units.items (exp_tree last))) }
{
    match take_apart(last) {
        Apart::Array(events) => Ok(SplitUnits {
            conditions: units,
            events,
            has_events: true,
        }),
        Apart::Conjunction(inner) => without_events(alloc, units, Exp::And(inner)),
        Apart::Call(name, args) => without_events(alloc, units, Exp::Call(name, args)),
        Apart::Other(exp) => without_events(alloc, units, exp),
    }
}

/// All units are conditions.
fn without_events(alloc: Global, units: Exps, last: Exp) -> Result<SplitUnits, AllocError>
    ensures { IfOk result (λ split. is_braces (exp_tree last) ≡ false → (es : tree.ExpTrees) →
        es ≡ exps_of_before units.items (exp_tree last) → IsSplit split es) }
{
    let mut units = units;
    units.push(last)?;
    Ok(SplitUnits {
        conditions: units,
        events: Exps::new(alloc),
        has_events: false,
    })
}

/// One condition, or several one after the other.
fn condition(conditions: Exps) -> Option<Exp>
    ensures { option_map exp_tree result ≡ spec.condition (exps_of conditions.items) }
{
    let mut conditions = conditions;
    let count = conditions.len();
    if count == 0 {
        drop(conditions);
        return None;
    }
    if count == 1 {
        let condition = conditions.remove(0);
        drop(conditions);
        return Some(condition);
    }
    Some(Exp::And(conditions))
}
