//! Lists of names.
ghost use Rattle.std.specs.Prelude.{◌≡◌, IfOk};
ghost use Rattle.pi_meaning.specs.OverNames.Texts.{is_among as is_among_names, behind as behind_of, with_one as with_one_of};
ghost use Rattle.pi_rewrite_slots.specs.Indexed.{names_in};
ghost use Rattle.pi_rewrite_sites.specs.TextNames.{those as those_of, kept_of};

use std::alloc::{AllocError, Global};

/// Whether a name is one of these.
pub fn is_among(names: &[&str], name: &str) -> bool
    ensures { result ≡ is_among_names (names_in names.now) name.now }
{
    for other in names {
        if name == *other {
            return true;
        }
    }
    false
}

/// Puts names behind those that stand before, each once, and no `_`. Errors: no memory.
pub fn put_behind<'a>(before: &mut Vec<&'a str>, names: &[&'a str]) -> Result<(), AllocError>
    ensures { IfOk result (λ _. names_in before.new.items ≡ behind_of (names_in before.old.items) (names_in names.now)) }
{
    for name in names {
        put_one(before, *name)?;
    }
    Ok(())
}

/// Puts a name behind those that stand before, where it is none of them and no `_`.
fn put_one<'a>(before: &mut Vec<&'a str>, name: &'a str) -> Result<(), AllocError>
    ensures { IfOk result (λ _. names_in before.new.items ≡ with_one_of (names_in before.old.items) name.now) }
{
    if name == "_" {
        return Ok(());
    }
    if is_among(before.as_slice(), name) {
        return Ok(());
    }
    before.push(name)?;
    Ok(())
}

/// Of these names those that are among some, or those that are not. Errors: no memory.
pub fn those<'a>(
    alloc: Global,
    names: &[&'a str],
    some: &[&str],
    are_among: bool,
) -> Result<Vec<&'a str>, AllocError>
    ensures { IfOk result (λ made. names_in made.items ≡ those_of are_among (names_in some.now) (names_in names.now)) }
{
    let mut made = Vec::new(alloc);
    for name in names {
        if is_among(some, *name) == are_among {
            made.push(*name)?;
        }
    }
    Ok(made)
}

/// The names that a loop keeps, of those before it, by the names of its iterators' patterns and those that are assigned in
/// it. Errors: no memory.
pub fn kept_names<'a>(
    alloc: Global,
    before: &[&str],
    patterns: &[&str],
    assigned: &[&'a str],
) -> Result<Vec<&'a str>, AllocError>
    ensures { IfOk result (λ made. names_in made.items ≡ kept_of (names_in before.now) (names_in patterns.now) (names_in assigned.now)) }
{
    let outer = those(alloc, assigned, patterns, false)?;
    let mut once = Vec::new(alloc);
    put_behind(&mut once, outer.as_slice())?;
    let kept = those(alloc, once.as_slice(), before, true)?;
    Ok(kept)
}
