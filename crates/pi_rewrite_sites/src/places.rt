//! Names of a text, from the left.
ghost use Rattle.std.specs.Prelude.{◌≡◌, ◌++◌, ◌∷◌, [], IfOk};
ghost use Rattle.pi_syntax.specs.ExpTree.{exp_tree};
ghost use Rattle.pi_syntax.specs.ExpLists.{exps_of};
ghost use Rattle.pi_rewrite_slots.specs.Indexed.{names_in};
ghost use Rattle.pi_rewrite_slots.specs.Branches.{branches_in};
ghost use Rattle.pi_rewrite_sites.specs.TextNames.{names_of, names_of_all, names_of_branches};

use pi_rewrite_slots::both;
use pi_syntax::Exp;
use std::alloc::AllocError;

/// Puts the names at all places of an expression behind others, from the left, `_` among them: those in loops and
/// comprehensions too, or not. Errors: no memory.
#[cycle(places)]
#[tactic(auto, unfolding(pi_syntax::specs::ExpTree::exp_tree, pi_meaning::specs::OverNames::Texts::places, pi_meaning::specs::OverNames::Texts::occurring, crate::specs::TextNames::names_of))]
pub fn push_names<'a>(
    in_loops: bool,
    exp: &'a Exp,
    names: &mut Vec<&'a str>,
) -> Result<(), AllocError>
    ensures { IfOk result (λ _. names_in names.new.items ≡ names_in names.old.items ++ names_of in_loops (exp_tree exp.now)) }
{
    match exp {
        Exp::Var(name) => push_name(name.as_str(), names),
        Exp::Int(_) => Ok(()),
        Exp::Atom(_) => Ok(()),
        Exp::Str(_) => Ok(()),
        Exp::List(items, tail) => match tail {
            Some(tail) => both(
                push_names_of_all(in_loops, items.as_slice(), names),
                push_names(in_loops, tail, names),
            ),
            None => push_names_of_all(in_loops, items.as_slice(), names),
        },
        Exp::Array(items) => push_names_of_all(in_loops, items.as_slice(), names),
        Exp::Call(_, args) => push_names_of_all(in_loops, args.as_slice(), names),
        Exp::Quote(inner) => push_names(in_loops, inner, names),
        Exp::Index(of, places) => both(
            push_names(in_loops, of, names),
            push_names_of_all(in_loops, places.as_slice(), names),
        ),
        Exp::Range(first, step, last) => match step {
            Some(step) => both(
                push_names(in_loops, first, names),
                both(
                    push_names(in_loops, step, names),
                    push_names(in_loops, last, names),
                ),
            ),
            None => both(
                push_names(in_loops, first, names),
                push_names(in_loops, last, names),
            ),
        },
        Exp::At(name, part) => both(
            push_name(name.as_str(), names),
            push_names(in_loops, part, names),
        ),
        Exp::Collect(_, item, units) => {
            if !in_loops {
                return Ok(());
            }
            both(
                push_names_of_all(in_loops, units.as_slice(), names),
                push_names(in_loops, item, names),
            )
        }
        Exp::And(parts) => push_names_of_all(in_loops, parts.as_slice(), names),
        Exp::Or(parts) => push_names_of_all(in_loops, parts.as_slice(), names),
        Exp::Arrow(test, body) => both(
            push_names(in_loops, test, names),
            push_names(in_loops, body, names),
        ),
        Exp::If(branches, other) => match other {
            Some(other) => both(
                push_names_of_branches(in_loops, branches.as_slice(), names),
                push_names(in_loops, other, names),
            ),
            None => push_names_of_branches(in_loops, branches.as_slice(), names),
        },
        Exp::Foreach(units, body) => {
            if !in_loops {
                return Ok(());
            }
            both(
                push_names_of_all(in_loops, units.as_slice(), names),
                push_names(in_loops, body, names),
            )
        }
        Exp::While(test, body) => {
            if !in_loops {
                return Ok(());
            }
            both(
                push_names(in_loops, test, names),
                push_names(in_loops, body, names),
            )
        }
        Exp::DoWhile(body, test) => {
            if !in_loops {
                return Ok(());
            }
            both(
                push_names(in_loops, body, names),
                push_names(in_loops, test, names),
            )
        }
    }
}

/// Puts a name behind others.
fn push_name<'a>(name: &'a str, names: &mut Vec<&'a str>) -> Result<(), AllocError>
    ensures { IfOk result (λ _. names_in names.new.items ≡ names_in names.old.items ++ name.now ∷ []) }
{
    names.push(name)?;
    Ok(())
}

/// Puts the names of expressions behind others, from the left. Errors: no memory.
#[cycle(places)]
pub fn push_names_of_all<'a>(
    in_loops: bool,
    exps: &'a [Exp],
    names: &mut Vec<&'a str>,
) -> Result<(), AllocError>
    ensures { IfOk result (λ _. names_in names.new.items ≡ names_in names.old.items ++ names_of_all in_loops (exps_of exps.now)) }
{
    for exp in exps {
        push_names(in_loops, exp, names)?;
    }
    Ok(())
}

/// Puts the names of conditions and their bodies behind others, from the left. Errors: no memory.
#[cycle(places)]
pub fn push_names_of_branches<'a>(
    in_loops: bool,
    branches: &'a [(Exp, Exp)],
    names: &mut Vec<&'a str>,
) -> Result<(), AllocError>
    ensures { IfOk result (λ _. names_in names.new.items ≡
        names_in names.old.items ++ names_of_branches in_loops (branches_in branches.now)) }
{
    for branch in branches {
        push_names(in_loops, &branch.0, names)?;
        push_names(in_loops, &branch.1, names)?;
    }
    Ok(())
}
