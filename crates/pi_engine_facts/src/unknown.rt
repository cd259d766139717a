//! What is raised of a name that calls nothing.
ghost use Rattle.std.specs.Prelude.{◌≡◌, ◌||◌, ◌++◌, false, not, map, codes, option_map, IfOk};
ghost use Rattle.std.specs.Str.{bytes_eq};
ghost use Rattle.pi_core.specs.CoreTree.{pred_tree, is_pred, find_pred};
ghost use Rattle.pi_meaning.specs.Shared.Names.{is_planner};
ghost use Rattle.pi_meaning.specs.Machine.Step.{unknown_ball, unknown_by, is_defined};

use pi_core::CorePred;
use pi_terms::Term;
use std::alloc::{AllocError, Global};

/// What is raised of a name that calls nothing with so many arguments, in a program with these predicates and a query's
/// own: `unknown_name(Name,N)`. Of a planner call it tells the first predicate that such a call wants and that isn't there.
pub fn unknown_name(
    alloc: Global,
    preds: &[CorePred],
    helpers: &[CorePred],
    name: &str,
    arity: u64,
) -> Result<Term, AllocError>
    ensures { IfOk result (λ made. made ≡ unknown_by (map pred_tree (preds.now ++ helpers.now)) name.now arity) }
{
    if !is_planner(name, arity) {
        return unknown_ball(alloc, name, arity);
    }
    if !defines(preds, helpers, "final", 1) {
        return unknown_ball(alloc, "final", 1);
    }
    if !defines(preds, helpers, "action", 4) {
        return unknown_ball(alloc, "action", 4);
    }
    unknown_ball(alloc, name, arity)
}

/// What is raised of a name that isn't known with so many arguments: `unknown_name(Name,N)`. Own.
pub fn unknown_ball(alloc: Global, name: &str, arity: u64) -> Result<Term, AllocError>
    ensures { IfOk result (λ made. made ≡ unknown_ball name.now arity) }
{
    let name = Term::atom(alloc, name)?;
    let arity = Term::int(alloc, i128::from(arity))?;
    Ok(Term::comp(alloc, "unknown_name", &[name, arity])?)
}

/// Whether it is a planner call.
fn is_planner(name: &str, arity: u64) -> bool
    ensures { result ≡ is_planner name.now arity }
{
    is_plan(name) & ((arity == 2) | ((arity == 3) | (arity == 4)))
}

fn is_plan(name: &str) -> bool
    ensures { result ≡ (bytes_eq name.now (codes "plan") || bytes_eq name.now (codes "best_plan")) }
{
    (name == "plan") | (name == "best_plan")
}

/// Whether a predicate of this name with so many arguments is there that `call` finds.
fn defines(preds: &[CorePred], helpers: &[CorePred], name: &str, arity: u32) -> bool
    ensures { result ≡ is_defined (map pred_tree (preds.now ++ helpers.now)) name.now arity }
{
    match found(preds, name, arity) {
        Some(is_loud) => is_loud,
        None => match found(helpers, name, arity) {
            Some(is_loud) => is_loud,
            None => false,
        },
    }
}

/// Of the first predicate of this name with so many arguments: whether it is no quiet one.
fn found(preds: &[CorePred], name: &str, arity: u32) -> Option<bool>
    ensures { result ≡ option_map (λ p. not p.quiet) (find_pred false name.now arity (map pred_tree preds.now)) }
{
    for pred in preds {
        if is_named(pred, name, arity) {
            return Some(!pred.quiet);
        }
    }
    None
}

/// Whether a predicate has this name and so many arguments.
fn is_named(pred: &CorePred, name: &str, arity: u32) -> bool
    ensures { result ≡ is_pred false name.now arity (pred_tree pred.now) }
{
    if pred.function {
        return false;
    }
    (pred.name.as_str() == name) & (pred.arity == arity)
}
