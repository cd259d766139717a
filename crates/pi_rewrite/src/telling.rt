//! The names that an answer of a goal tells.
ghost use Rattle.std.specs.Prelude.{◌≡◌, [], IfOk};
ghost use Rattle.pi_syntax.specs.ExpTree.{exp_tree};
ghost use Rattle.pi_meaning.specs.OverNames.Telling.{is_hidden as is_hidden_name, one_more, told_behind};
ghost use Rattle.pi_meaning.specs.OverNames.Run.{answer_names};
ghost use Rattle.pi_rewrite_slots.specs.Indexed.{names_in};

use pi_rewrite_sites::{is_among, push_names};
use pi_syntax::Exp;
use std::alloc::{AllocError, Global};

/// The names of the variables outside of loops and comprehensions that don't begin with `_`, each once, by first occurrence.
pub(crate) fn told_names(alloc: Global, goal: &Exp) -> Result<Vec<&str>, AllocError>
    ensures { IfOk result (λ names. names_in names.items ≡ answer_names (exp_tree goal.now)) }
{
    let mut names = Vec::new(alloc);
    push_names(false, goal, &mut names)?;
    told(alloc, names.as_slice())
}

/// Those of these names that are told, each once, by first occurrence.
fn told<'a>(alloc: Global, names: &[&'a str]) -> Result<Vec<&'a str>, AllocError>
    ensures { IfOk result (λ told. names_in told.items ≡ told_behind [] (names_in names.now)) }
{
    let mut told = Vec::new(alloc);
    for name in names {
        tell_name(*name, &mut told)?;
    }
    Ok(told)
}

/// Adds a name behind those before it, where it is none of them and doesn't begin with `_`.
fn tell_name<'a>(name: &'a str, names: &mut Vec<&'a str>) -> Result<(), AllocError>
    ensures { IfOk result (λ _. names_in names.new.items ≡ one_more (names_in names.old.items) name.now) }
{
    if is_hidden(name) {
        return Ok(());
    }
    if is_among(names.as_slice(), name) {
        return Ok(());
    }
    names.push(name)?;
    Ok(())
}

/// Whether a name begins with `_`: such a variable isn't told.
fn is_hidden(name: &str) -> bool
    ensures { result ≡ is_hidden_name name.now }
{
    match name.as_bytes() {
        [first, ..] => *first == b'_',
        [] => false,
    }
}
