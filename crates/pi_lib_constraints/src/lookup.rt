//! Which goal of constraints and which function of domains a name is.
ghost use Rattle.std.specs.Prelude.{◌≡◌, false, IfSome, IfNone};
ghost use Rattle.pi_settling.specs.DomainValues.{is_domain_function};
ghost use Rattle.pi_settling.specs.Goals.{is_constraint_goal};
ghost use Rattle.pi_lib_constraints.specs.Functions.{function_name};
ghost use Rattle.pi_lib_constraints.specs.Named.{IsConstraintNamed, one_named, two_named, ranged, compared, connected, function_named};

use crate::functions::DomainFunction;
use crate::kinds::{ConstraintGoal, GoalOfOne, GoalOfTwo};
use pi_prop_read::{Comparison, Connective};

/// The goal of constraints with a name and this number of arguments; None exactly where there is none.
pub fn constraint_named(name: &str, arity: usize) -> Option<ConstraintGoal>
    ensures some { IfSome result (λ g. IsConstraintNamed name.now arity g) }
    ensures none { IfNone result (is_constraint_goal name.now arity ≡ false) }
{
    match arity {
        1 => match one_named(name) {
            Some(goal) => Some(ConstraintGoal::OfOne(goal)),
            None => None,
        },
        2 => match two_named(name) {
            Some(goal) => Some(ConstraintGoal::OfTwo(goal)),
            None => None,
        },
        3 => {
            if name == "element" {
                Some(ConstraintGoal::Element)
            } else {
                None
            }
        }
        _ => None,
    }
}

/// The function of domains with a name and this number of arguments; None exactly where there is none.
pub fn domain_function_named(name: &str, arity: usize) -> Option<DomainFunction>
    ensures some { IfSome result (λ f. (name.now ≡ function_name f) × (arity ≡ 1)) }
    ensures none { IfNone result (is_domain_function name.now arity ≡ false) }
{
    match arity {
        1 => match function_named(name) {
            Some(function) => Some(function),
            None => None,
        },
        _ => None,
    }
}

fn function_named(name: &str) -> Option<DomainFunction>
    ensures { result ≡ function_named name.now }
{
    if name == "fd_min" {
        Some(DomainFunction::Least)
    } else if name == "fd_max" {
        Some(DomainFunction::Greatest)
    } else if name == "fd_size" {
        Some(DomainFunction::Size)
    } else if name == "fd_dom" {
        Some(DomainFunction::Values)
    } else {
        None
    }
}

fn one_named(name: &str) -> Option<GoalOfOne>
    ensures { result ≡ one_named name.now }
{
    if name == "#~" {
        Some(GoalOfOne::Negation)
    } else if name == "all_different" {
        Some(GoalOfOne::Different)
    } else if name == "all_distinct" {
        Some(GoalOfOne::Distinct)
    } else {
        None
    }
}

fn two_named(name: &str) -> Option<GoalOfTwo>
    ensures { result ≡ two_named name.now }
{
    match ranged(name) {
        Some(goal) => Some(goal),
        None => match compared(name) {
            Some(goal) => Some(goal),
            None => connected(name),
        },
    }
}

fn ranged(name: &str) -> Option<GoalOfTwo>
    ensures { result ≡ ranged name.now }
{
    if name == "::" {
        Some(GoalOfTwo::Within)
    } else if name == "notin" {
        Some(GoalOfTwo::NotIn)
    } else {
        None
    }
}

fn compared(name: &str) -> Option<GoalOfTwo>
    ensures { result ≡ compared name.now }
{
    if name == "#=" {
        Some(GoalOfTwo::Relation(Comparison::Equal))
    } else if name == "#!=" {
        Some(GoalOfTwo::Relation(Comparison::Unequal))
    } else if name == "#<" {
        Some(GoalOfTwo::Relation(Comparison::Less))
    } else if name == "#=<" {
        Some(GoalOfTwo::Relation(Comparison::AtMost))
    } else if name == "#<=" {
        Some(GoalOfTwo::Relation(Comparison::AtMost))
    } else if name == "#>" {
        Some(GoalOfTwo::Relation(Comparison::Greater))
    } else if name == "#>=" {
        Some(GoalOfTwo::Relation(Comparison::AtLeast))
    } else {
        None
    }
}

fn connected(name: &str) -> Option<GoalOfTwo>
    ensures { result ≡ connected name.now }
{
    if name == "#/\\" {
        Some(GoalOfTwo::Joined(Connective::And))
    } else if name == "#\\/" {
        Some(GoalOfTwo::Joined(Connective::Or))
    } else if name == "#^" {
        Some(GoalOfTwo::Joined(Connective::Either))
    } else if name == "#=>" {
        Some(GoalOfTwo::Joined(Connective::Implies))
    } else if name == "#<=>" {
        Some(GoalOfTwo::Joined(Connective::Equivalent))
    } else {
        None
    }
}
