//! Constraints that are posted, and the lists that they are put into.
ghost use Rattle.std.specs.Prelude.{◌≡◌, ◌⊎◌, length, IsTrue, IsFalse, IfOk, OnErr};
ghost use Rattle.pi_constraints.specs.Constraint.{HoldsVariable, HoldVariable, SumHasVariable, SpeaksOf};
ghost use Rattle.pi_region.specs.Image.{Image};
ghost use Rattle.pi_region.specs.Back.{Advances};
ghost use Rattle.pi_store_blocks.specs.ConstraintTable.{constraint_at};
ghost use Rattle.pi_store.specs.Added.{AddsToLists, IsPutOn, TriesToPost, PostsIfMade};

use crate::heads::give_back;
use crate::lists::add_along;
use pi_constraints::{Constraint, Item, Items, LinTerms};
use pi_region::{Table, Trailed};
use pi_store_blocks::{read_constraint, write_constraint};
use std::alloc::{AllocError, Global};

/// Puts a constraint into the lists of a variable and of all that it leads to; false where it wasn't made.
fn put_on_variable(words: &mut Trailed, n: u64, number: u64) -> Result<bool, AllocError>
    ensures ok { IfOk result (IsPutOn (λ m. n ≡ m) words.old words.new number) }
    ensures adds { AddsToLists words.old words.new }
{
    let _len = words.len();
    if n >= words.count(Table::Variables) as u64 {
        return Ok(false);
    }
    add_along(words, n, number, 0)?;
    Ok(true)
}

fn put_on_item(words: &mut Trailed, item: Item, number: u64) -> Result<bool, AllocError>
    ensures ok { IfOk result (IsPutOn (HoldsVariable item) words.old words.new number) }
    ensures adds { AddsToLists words.old words.new }
{
    let _len = words.len();
    match item {
        Item::Var(n) => Ok(put_on_variable(words, n, number)?),
        Item::Int(_) => Ok(true),
    }
}

fn put_on_items(words: &mut Trailed, items: &Items, number: u64) -> Result<bool, AllocError>
    ensures ok { IfOk result (IsPutOn (HoldVariable items.now) words.old words.new number) }
    ensures adds { AddsToLists words.old words.new }
{
    let _len = words.len();
    for item in items.as_slice() {
        let put = put_on_item(words, *item, number)?;
        if !put {
            return Ok(false);
        }
    }
    Ok(true)
}

fn put_on_sum(words: &mut Trailed, terms: &LinTerms, number: u64) -> Result<bool, AllocError>
    ensures ok { IfOk result (IsPutOn (SumHasVariable terms.now) words.old words.new number) }
    ensures adds { AddsToLists words.old words.new }
{
    let _len = words.len();
    for term in terms.as_slice() {
        let put = put_on_variable(words, term.1, number)?;
        if !put {
            return Ok(false);
        }
    }
    Ok(true)
}

fn put_on_two(
    words: &mut Trailed,
    first: Item,
    second: Item,
    number: u64,
) -> Result<bool, AllocError>
    ensures ok { IfOk result (IsPutOn (λ n. HoldsVariable first n ⊎ HoldsVariable second n) words.old words.new number) }
    ensures adds { AddsToLists words.old words.new }
{
    let put = put_on_item(words, first, number)?;
    if !put {
        return Ok(false);
    }
    Ok(put_on_item(words, second, number)?)
}

fn put_on_items_and_one(
    words: &mut Trailed,
    items: &Items,
    last: Item,
    number: u64,
) -> Result<bool, AllocError>
    ensures ok { IfOk result (IsPutOn (λ n. HoldVariable items.now n ⊎ HoldsVariable last n) words.old words.new number) }
    ensures adds { AddsToLists words.old words.new }
{
    let put = put_on_items(words, items, number)?;
    if !put {
        return Ok(false);
    }
    Ok(put_on_item(words, last, number)?)
}

fn put_on_three(
    words: &mut Trailed,
    first: Item,
    second: Item,
    third: Item,
    number: u64,
) -> Result<bool, AllocError>
    ensures ok { IfOk result (IsPutOn (λ n. HoldsVariable first n ⊎ (HoldsVariable second n ⊎ HoldsVariable third n)) words.old
        words.new number) }
    ensures adds { AddsToLists words.old words.new }
{
    let put = put_on_item(words, first, number)?;
    if !put {
        return Ok(false);
    }
    Ok(put_on_two(words, second, third, number)?)
}

fn put_on_element(
    words: &mut Trailed,
    index: Item,
    items: &Items,
    value: Item,
    number: u64,
) -> Result<bool, AllocError>
    ensures ok { IfOk result (IsPutOn (λ n. HoldsVariable index n ⊎ (HoldVariable items.now n ⊎ HoldsVariable value n)) words.old
        words.new number) }
    ensures adds { AddsToLists words.old words.new }
{
    let put = put_on_item(words, index, number)?;
    if !put {
        return Ok(false);
    }
    Ok(put_on_items_and_one(words, items, value, number)?)
}

fn put_on_truth_and_sum(
    words: &mut Trailed,
    truth: Item,
    terms: &LinTerms,
    number: u64,
) -> Result<bool, AllocError>
    ensures ok { IfOk result (IsPutOn (λ n. HoldsVariable truth n ⊎ SumHasVariable terms.now n) words.old words.new number) }
    ensures adds { AddsToLists words.old words.new }
{
    let put = put_on_item(words, truth, number)?;
    if !put {
        return Ok(false);
    }
    Ok(put_on_sum(words, terms, number)?)
}

/// Puts a constraint into the lists of all variables in it and of those that they lead to; false where one of them wasn't made. A refusal
/// may leave words.
fn put_on_all(words: &mut Trailed, constraint: &Constraint, number: u64) -> Result<bool, AllocError>
    ensures ok { IfOk result (IsPutOn (SpeaksOf constraint.now) words.old words.new number) }
    ensures adds { AddsToLists words.old words.new }
{
    match constraint {
        Constraint::Linear { terms, .. } => put_on_sum(words, terms, number),
        Constraint::Product { z, x, y } => put_on_three(words, *z, *x, *y, number),
        Constraint::Absolute { z, x } => put_on_two(words, *z, *x, number),
        Constraint::Different(items) => put_on_items(words, items, number),
        Constraint::Element {
            index,
            items,
            value,
        } => put_on_element(words, *index, items, *value, number),
        Constraint::Reified { truth, terms, .. } => {
            put_on_truth_and_sum(words, *truth, terms, number)
        }
        Constraint::Distinct(items) => put_on_items(words, items, number),
    }
}

/// The same for the constraint whose block ends at a place.
fn put_on_written(
    alloc: Global,
    words: &mut Trailed,
    end: usize,
    number: u64,
) -> Result<bool, AllocError>
    ensures ok { IfOk result (IsPutOn (SpeaksOf (constraint_at words.old.region end)) words.old words.new number) }
    ensures adds { AddsToLists words.old words.new }
{
    let _len = words.len();
    let written = read_constraint(alloc, words, end)?;
    let put = put_on_all(words, &written, number);
    drop(written);
    put
}

/// Writes a constraint, puts it into lists, and then gives it a word of the table; false where a variable in it wasn't made. A refusal may
/// leave words, and so does a constraint that isn't posted.
fn try_post(alloc: Global, words: &mut Trailed, constraint: &Constraint) -> Result<bool, AllocError>
    ensures ok { IfOk result (TriesToPost words.old words.new constraint.now) }
    ensures advances { Advances words.old words.new }
{
    let _len = words.len();
    let number = words.count(Table::Constraints) as u64;
    let end = write_constraint(words, constraint)?;
    let put = put_on_written(alloc, words, end, number)?;
    if !put {
        return Ok(false);
    }
    words.push(Table::Constraints, end as u64)?;
    Ok(true)
}

/// Leaves the words as they are where a constraint was posted, and brings back what they were when the region had this length where it
/// wasn't; answers which.
fn keep_posted(words: &mut Trailed, len: usize, posted: bool) -> bool
    ensures is { result ≡ posted }
    ensures kept { IsTrue posted → words.new ≡ words.old }
    ensures undone { IsFalse posted → (before : Image) → Advances before words.old → len ≡ length before.region → words.new ≡ before }
{
    if posted {
        return true;
    }
    words.undo(len);
    false
}

/// One more constraint, and whether it was posted: it isn't where a variable in it wasn't made.
pub fn post_constraint(
    alloc: Global,
    words: &mut Trailed,
    constraint: &Constraint,
) -> Result<bool, AllocError>
    ensures ok { IfOk result (PostsIfMade words.old words.new constraint.now) }
    ensures err { OnErr result (words.new ≡ words.old) }
{
    let start = words.len();
    match try_post(alloc, words, constraint) {
        Ok(posted) => Ok(keep_posted(words, start, posted)),
        Err(refused) => Err(give_back(words, start, refused)),
    }
}
