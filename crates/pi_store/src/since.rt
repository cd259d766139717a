//! The variables that changed since a mark.
ghost use Rattle.std.specs.Prelude.{◌≡◌, ◌↔◌, IsTrue, IfOk};
ghost use Rattle.pi_store.specs.Domains.{domain_by};
ghost use Rattle.pi_store.specs.Since.{IsChanged, AreSince};

use crate::domains::domain_by;
use crate::posted::push_if;
use pi_constraints::{Domain, Places};
use pi_region::{Table, Trailed};
use pi_terms::Series;
use std::alloc::{AllocError, Global};

/// The variables that were unbound when the region had this length and are bound now or have another domain; ascending. It
/// costs what changed since.
pub fn changed_since(alloc: Global, words: &Trailed, len: usize) -> Result<Places, AllocError>
    ensures { IfOk result (λ found. AreSince words.now len found) }
{
    let changes = words.changes_since(alloc, len)?;
    let count = changes.count;
    let mut found = Series::new(alloc);
    for (n, old) in &changes.words {
        let changed = is_changed(alloc, words, count, *n, *old)?;
        push_if(&mut found, *n, changed)?;
    }
    Ok(found)
}

/// Whether a variable among the first so many, which wasn't bound by the word that it had, is bound now or has another domain.
fn is_changed(
    alloc: Global,
    words: &Trailed,
    count: usize,
    n: u64,
    old: u64,
) -> Result<bool, AllocError>
    ensures { IfOk result (λ changed. IsTrue changed ↔ IsChanged words.now count n old) }
{
    if n >= count as u64 {
        return Ok(false);
    }
    if old % 8 != 0 {
        return Ok(false);
    }
    let now = words.get(Table::Variables, n as usize);
    if now % 8 != 0 {
        return Ok(true);
    }
    let same = say_the_same(alloc, words, now, old)?;
    Ok(!same)
}

/// Whether two words of a variable say the same domain.
fn say_the_same(alloc: Global, words: &Trailed, now: u64, old: u64) -> Result<bool, AllocError>
    ensures { IfOk result (λ same. IsTrue same ↔ (domain_by words.now.region now ≡ domain_by words.now.region old)) }
{
    let after = domain_by(alloc, words, now)?;
    let before = domain_by(alloc, words, old)?;
    match after {
        None => match before {
            None => Ok(true),
            Some(_) => Ok(false),
        },
        Some(after) => match before {
            None => Ok(false),
            Some(before) => Ok(is_same(&after, &before)),
        },
    }
}

/// Whether two domains have the same values.
fn is_same(a: &Domain, b: &Domain) -> bool
    ensures { IsTrue result ↔ (a.now ≡ b.now) }
{
    a.spans() == b.spans()
}
