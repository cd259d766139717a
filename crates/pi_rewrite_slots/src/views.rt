//! Names of slots, of which some find none.
ghost use Rattle.std.specs.Prelude.{◌≡◌, ◌++◌, cond, not, replicate, IfOk};
ghost use Rattle.std.specs.Str.{bytes_eq};
ghost use Rattle.pi_meaning.specs.OverNames.Texts.{is_among};
ghost use Rattle.pi_rewrite_spec.specs.Slots.{unnamed};
ghost use Rattle.pi_rewrite_spec.specs.Iterators.{found_by, only};
ghost use Rattle.pi_rewrite_slots.specs.Indexed.{names_in};

use crate::slots::place_of;
use std::alloc::{AllocError, Global};

/// These names, of which those that are among some still find their slots.
pub(crate) fn names_only<'a>(
    alloc: Global,
    names: &[&'a str],
    some: &[&str],
) -> Result<Vec<&'a str>, AllocError>
    ensures { IfOk result (λ made. names_in made.items ≡ only (names_in some.now) (names_in names.now)) }
{
    let mut made = Vec::new(alloc);
    for name in names {
        let finds = is_one_of(some, *name);
        made.push(found(*name, finds))?;
    }
    Ok(made)
}

/// These names, of which each but one still finds its slot.
pub(crate) fn names_but<'a>(
    alloc: Global,
    names: &[&'a str],
    but: &str,
) -> Result<Vec<&'a str>, AllocError>
    ensures { IfOk result (λ made. names_in made.items ≡ found_by (λ n. not (bytes_eq n but.now)) (names_in names.now)) }
{
    let mut made = Vec::new(alloc);
    for name in names {
        let finds = *name != but;
        made.push(found(*name, finds))?;
    }
    Ok(made)
}

/// Puts so many names behind these that find no slot.
pub(crate) fn push_unnamed(names: &mut Vec<&str>, count: usize) -> Result<(), AllocError>
    ensures { IfOk result (λ _. names_in names.new.items ≡ names_in names.old.items ++ replicate count unnamed) }
{
    for _ in 0..count {
        names.push("_")?;
    }
    Ok(())
}

/// Whether a name is one of some.
pub(crate) fn is_one_of(names: &[&str], name: &str) -> bool
    ensures { result ≡ is_among (names_in names.now) name.now }
{
    place_of(names, name).is_some()
}

/// What a slot of this name is found by.
fn found<'a>(name: &'a str, finds: bool) -> &'a str
    ensures { result.now ≡ cond finds name.now unnamed }
{
    if finds {
        return name;
    }
    "_"
}
