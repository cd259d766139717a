//! Names that goals assign.
ghost use Rattle.std.specs.Prelude.{◌≡◌, ◌++◌, IfOk};
ghost use Rattle.pi_syntax.specs.ExpTree.{exp_tree, call, one_exp};
ghost use Rattle.pi_syntax.specs.ExpLists.{exps_of};
ghost use Rattle.pi_meaning.specs.OverNames.Texts.{assigned as assigned_of, assigned_all as assigned_of_all, assigned_in_branches as assigned_of_branches, patterns_of, without, the_name, variable_first};
ghost use Rattle.pi_rewrite_slots.specs.Indexed.{names_in};
ghost use Rattle.pi_rewrite_slots.specs.Branches.{branches_in};

use crate::names::those;
use crate::units::push_patterns;
use pi_syntax::Exp;
use std::alloc::{AllocError, Global};

/// Puts the names that a goal assigns behind others, from the left: in conjunctions, branches and the bodies of loops. A
/// name of a loop's pattern is another one. Errors: no memory.
#[cycle(assigned)]
#[tactic(auto, unfolding(pi_syntax::specs::ExpTree::exp_tree, pi_meaning::specs::OverNames::Texts::assigned))]
pub fn push_assigned<'a>(
    alloc: Global,
    exp: &'a Exp,
    names: &mut Vec<&'a str>,
) -> Result<(), AllocError>
    ensures { IfOk result (λ _. names_in names.new.items ≡ names_in names.old.items ++ assigned_of (exp_tree exp.now)) }
{
    match exp {
        Exp::Call(name, args) => push_first(name.as_str(), args.as_slice(), names),
        Exp::And(parts) => push_assigned_in_all(alloc, parts.as_slice(), names),
        Exp::Or(parts) => push_assigned_in_all(alloc, parts.as_slice(), names),
        Exp::Arrow(_, body) => push_assigned(alloc, body, names),
        Exp::If(branches, other) => match other {
            Some(other) => {
                push_assigned_in_branches(alloc, branches.as_slice(), names)?;
                push_assigned(alloc, other, names)
            }
            None => push_assigned_in_branches(alloc, branches.as_slice(), names),
        },
        Exp::Foreach(units, body) => {
            let mut inner = Vec::new(alloc);
            push_assigned(alloc, body, &mut inner)?;
            push_outer(alloc, units.as_slice(), inner.as_slice(), names)
        }
        Exp::While(_, body) => push_assigned(alloc, body, names),
        Exp::DoWhile(body, _) => push_assigned(alloc, body, names),
        Exp::Var(_) => Ok(()),
        Exp::Int(_) => Ok(()),
        Exp::Atom(_) => Ok(()),
        Exp::Str(_) => Ok(()),
        Exp::List(_, _) => Ok(()),
        Exp::Array(_) => Ok(()),
        Exp::Quote(_) => Ok(()),
        Exp::Index(_, _) => Ok(()),
        Exp::Range(_, _, _) => Ok(()),
        Exp::At(_, _) => Ok(()),
        Exp::Collect(_, _, _) => Ok(()),
    }
}

/// Puts the name that a call assigns behind others: in `X := E` the one that stands first.
fn push_first<'a>(name: &str, args: &'a [Exp], names: &mut Vec<&'a str>) -> Result<(), AllocError>
    ensures { IfOk result (λ _. names_in names.new.items ≡ names_in names.old.items ++ assigned_of (call name.now (exps_of args.now))) }
{
    if name == ":=" {
        push_variable_of(args, names)?;
        return Ok(());
    }
    Ok(())
}

/// Puts the name of the variable that stands first behind others, where one does.
fn push_variable_of<'a>(args: &'a [Exp], names: &mut Vec<&'a str>) -> Result<(), AllocError>
    ensures { IfOk result (λ _. names_in names.new.items ≡ names_in names.old.items ++ the_name (variable_first (exps_of args.now))) }
{
    if args.is_empty() {
        return Ok(());
    }
    push_variable(&args[0], names)?;
    Ok(())
}

/// Puts the name of a variable behind others.
#[tactic(auto, unfolding(pi_syntax::specs::ExpTree::exp_tree))]
fn push_variable<'a>(exp: &'a Exp, names: &mut Vec<&'a str>) -> Result<(), AllocError>
    ensures { IfOk result (λ _. names_in names.new.items ≡
        names_in names.old.items ++ the_name (variable_first (one_exp (exp_tree exp.now)))) }
{
    match exp {
        Exp::Var(name) => {
            names.push(name.as_str())?;
            Ok(())
        }
        _ => Ok(()),
    }
}

/// Puts the names that goals assign behind others.
#[cycle(assigned)]
fn push_assigned_in_all<'a>(
    alloc: Global,
    exps: &'a [Exp],
    names: &mut Vec<&'a str>,
) -> Result<(), AllocError>
    ensures { IfOk result (λ _. names_in names.new.items ≡ names_in names.old.items ++ assigned_of_all (exps_of exps.now)) }
{
    for exp in exps {
        push_assigned(alloc, exp, names)?;
    }
    Ok(())
}

/// Puts the names that bodies of conditions assign behind others.
#[cycle(assigned)]
fn push_assigned_in_branches<'a>(
    alloc: Global,
    branches: &'a [(Exp, Exp)],
    names: &mut Vec<&'a str>,
) -> Result<(), AllocError>
    ensures { IfOk result (λ _. names_in names.new.items ≡ names_in names.old.items ++ assigned_of_branches (branches_in branches.now)) }
{
    for branch in branches {
        push_assigned(alloc, &branch.1, names)?;
    }
    Ok(())
}

/// Puts names that a turn assigns behind others, but for those of the iterators' patterns.
fn push_outer<'a>(
    alloc: Global,
    units: &'a [Exp],
    inner: &[&'a str],
    names: &mut Vec<&'a str>,
) -> Result<(), AllocError>
    ensures { IfOk result (λ _. names_in names.new.items ≡
        names_in names.old.items ++ without (names_in inner.now) (patterns_of (exps_of units.now))) }
{
    let mut patterns = Vec::new(alloc);
    push_patterns(units, &mut patterns)?;
    let mut outer = those(alloc, inner, patterns.as_slice(), false)?;
    names.append(&mut outer)?;
    Ok(())
}
