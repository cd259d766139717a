//! The constraints on a variable.
ghost use Rattle.std.specs.Prelude.{◌≡◌, ℕ, IfOk, IsTrue, length, slice_index, cond, ◌++◌, ◌∷◌, [], Contains};
ghost use Rattle.std.specs.List.Sorted.{IsNonDecreasing};
ghost use Rattle.pi_store.specs.Posted.{item_leads, items_lead, sum_leads, constraint_leads, posted_at, ListsBelow, Passes, sought};
ghost use Rattle.pi_store.specs.Lists.{IsOnList, IsComplete};

use crate::heads::list_end;
use crate::walk::variable_leads_to;
use pi_constraints::{Constraint, Item, Items, LinTerms, Places};
use pi_region::{Table, Trailed};
use pi_store_blocks::{listed, numbered_constraint};
use pi_terms::Series;
use std::alloc::{AllocError, Global};

/// Whether a place holds a variable, or one that leads to it.
fn item_leads(words: &Trailed, item: Item, v: u64) -> bool
    ensures { result ≡ item_leads words.now.variables item v }
{
    match item {
        Item::Var(n) => variable_leads_to(words, n, v),
        Item::Int(_) => false,
    }
}

#[tactic(auto, unfolding(crate::specs::Posted::items_lead))]
fn items_lead(words: &Trailed, items: &Items, v: u64) -> bool
    ensures { result ≡ items_lead words.now.variables items.now v }
{
    for item in items.as_slice() {
        if item_leads(words, *item, v) {
            return true;
        }
    }
    false
}

#[tactic(auto, unfolding(crate::specs::Posted::sum_leads))]
fn sum_leads(words: &Trailed, terms: &LinTerms, v: u64) -> bool
    ensures { result ≡ sum_leads words.now.variables terms.now v }
{
    for term in terms.as_slice() {
        if variable_leads_to(words, term.1, v) {
            return true;
        }
    }
    false
}

/// Whether a variable stands in a constraint, itself or as one that leads to it.
fn constraint_leads(words: &Trailed, constraint: &Constraint, v: u64) -> bool
    ensures { result ≡ constraint_leads words.now.variables constraint.now v }
{
    match constraint {
        Constraint::Linear { terms, .. } => sum_leads(words, terms, v),
        Constraint::Product { z, x, y } => {
            item_leads(words, *z, v) || item_leads(words, *x, v) || item_leads(words, *y, v)
        }
        Constraint::Absolute { z, x } => item_leads(words, *z, v) || item_leads(words, *x, v),
        Constraint::Different(items) => items_lead(words, items, v),
        Constraint::Element {
            index,
            items,
            value,
        } => {
            item_leads(words, *index, v)
                || items_lead(words, items, v)
                || item_leads(words, *value, v)
        }
        Constraint::Reified { truth, terms, .. } => {
            item_leads(words, *truth, v) || sum_leads(words, terms, v)
        }
        Constraint::Distinct(items) => items_lead(words, items, v),
    }
}

/// Whether a variable stands in the constraint with this number.
fn is_posted(alloc: Global, words: &Trailed, n: u64, v: u64) -> Result<bool, AllocError>
    ensures { IfOk result (λ is. is ≡ posted_at words.now v n) }
{
    let constraint = numbered_constraint(alloc, words, n)?;
    Ok(constraint_leads(words, &constraint, v))
}

/// One more number, where it is one of those that are looked for.
pub fn push_if(found: &mut Places, number: u64, is_one: bool) -> Result<(), AllocError>
    ensures { IfOk result (λ _. found.new ≡ cond is_one (found.old ++ number ∷ []) found.old) }
{
    if is_one {
        found.push(number)?;
    }
    Ok(())
}

/// One number of a list more: it is looked at where it is that of a constraint and none below the least that is looked for. Answers the
/// least that is looked for then.
fn push_posted(
    alloc: Global,
    words: &Trailed,
    v: u64,
    n: u64,
    least: u64,
    found: &mut Places,
) -> Result<u64, AllocError>
    ensures { IfOk result (λ next. Passes words.now (sought v least) n found.old found.new next) }
{
    if n < least {
        return Ok(least);
    }
    if n >= words.count(Table::Constraints) as u64 {
        return Ok(least);
    }
    let stands = is_posted(alloc, words, n, v)?;
    push_if(found, n, stands)?;
    Ok(n + 1)
}

/// The numbers in the list of a variable, none above one behind it.
fn numbers_on(alloc: Global, words: &Trailed, v: u64) -> Result<Vec<u64>, AllocError>
    ensures ascend { IfOk result (λ numbers. IsNonDecreasing numbers.items) }
    ensures all { IfOk result (λ numbers. (k : ℕ) → IsOnList words.now v k → Contains numbers.items k) }
{
    let mut numbers = listed(alloc, words, list_end(words, v))?;
    numbers.sort_unstable();
    Ok(numbers)
}

/// The numbers of the constraints in which a variable stands, itself or as one that leads to it; ascending. It costs those that are in
/// its list.
pub fn posted_on(alloc: Global, words: &Trailed, v: u64) -> Result<Places, AllocError>
    ensures { IfOk result (λ found. IsComplete words.now →
        ListsBelow (λ n. IsTrue (posted_at words.now v n)) (length words.now.constraints) found) }
{
    let numbers = numbers_on(alloc, words, v)?;
    let mut found = Series::new(alloc);
    let mut least = 0;
    for n in &numbers {
        least = push_posted(alloc, words, v, *n, least, &mut found)?;
    }
    Ok(found)
}
