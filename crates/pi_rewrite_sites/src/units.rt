//! Iterators and tests of loops.
ghost use Rattle.std.specs.Prelude.{◌≡◌, ◌++◌, IfOk};
ghost use Rattle.pi_syntax.specs.ExpTree.{exp_tree, call};
ghost use Rattle.pi_syntax.specs.ExpLists.{exps_of};
ghost use Rattle.pi_meaning.specs.OverNames.Texts.{iterated as iterated_of, begins_with_iterator as begins_of, patterns_of, pattern_places};
ghost use Rattle.pi_rewrite_slots.specs.Indexed.{names_in};
ghost use Rattle.pi_rewrite_sites.specs.TextNames.{tree_in, first_in};

use crate::places::push_names;
use pi_syntax::Exp;
use std::alloc::AllocError;

/// The pattern of an iterator; None for a test.
#[tactic(auto, unfolding(pi_syntax::specs::ExpTree::exp_tree))]
pub fn iterated(unit: &Exp) -> Option<&Exp>
    ensures { tree_in result ≡ iterated_of (exp_tree unit.now) }
{
    match unit {
        Exp::Call(name, args) => in_sign(name.as_str(), args.as_slice()),
        _ => None,
    }
}

/// What stands first in a call of `in` with two arguments.
fn in_sign<'a>(name: &str, args: &'a [Exp]) -> Option<&'a Exp>
    ensures { tree_in result ≡ iterated_of (call name.now (exps_of args.now)) }
{
    if name == "in" {
        return first_of_two(args);
    }
    None
}

/// The first of two expressions; None for any other number of them.
fn first_of_two(exps: &[Exp]) -> Option<&Exp>
    ensures { tree_in result ≡ first_in (exps_of exps.now) }
{
    if exps.len() == 2 {
        return Some(&exps[0]);
    }
    None
}

/// Whether a loop with these iterators and tests begins with an iterator.
pub fn begins_with_iterator(units: &[Exp]) -> bool
    ensures { result ≡ begins_of (exps_of units.now) }
{
    if units.is_empty() {
        return false;
    }
    iterated(&units[0]).is_some()
}

/// Puts the names of the patterns of iterators behind others. Errors: no memory.
pub fn push_patterns<'a>(units: &'a [Exp], names: &mut Vec<&'a str>) -> Result<(), AllocError>
    ensures { IfOk result (λ _. names_in names.new.items ≡ names_in names.old.items ++ patterns_of (exps_of units.now)) }
{
    for unit in units {
        push_pattern(unit, names)?;
    }
    Ok(())
}

/// Puts the names of an iterator's pattern behind others.
fn push_pattern<'a>(unit: &'a Exp, names: &mut Vec<&'a str>) -> Result<(), AllocError>
    ensures { IfOk result (λ _. names_in names.new.items ≡ names_in names.old.items ++ pattern_places (iterated_of (exp_tree unit.now))) }
{
    match iterated(unit) {
        Some(pattern) => {
            push_names(false, pattern, names)?;
            Ok(())
        }
        None => Ok(()),
    }
}
