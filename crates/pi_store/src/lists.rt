//! Lists of constraints, one for each variable.
ghost use Rattle.std.specs.Prelude.{ℕ, ◌≤◌, length, IfOk};
ghost use Rattle.pi_store_blocks.specs.NameTable.{NameTable};
ghost use Rattle.pi_store.specs.Sound.{IsSound};
ghost use Rattle.pi_store.specs.Added.{AddsToLists, IsAddedTo, IsAddedAlong};

use crate::heads::{list_end, write_head};
use crate::walk::next_variable;
use pi_region::{Table, Trailed};
use pi_store_blocks::add_node;
use std::alloc::AllocError;

/// How many variables can have lists. One past them is want of memory.
const MOST_LISTS: u64 = 288_230_376_151_711_744;

/// Puts a number, and what the list that ends at a place has, into the list of a variable. A refusal may leave words.
fn add_to_list(words: &mut Trailed, v: u64, number: u64, extra: usize) -> Result<(), AllocError>
    ensures ok { IfOk result (λ _. (t : NameTable) → IsSound t words.old → extra ≤ length words.old.region →
        IsAddedTo words.old words.new number extra v) }
    ensures adds { AddsToLists words.old words.new }
{
    let _len = words.len();
    if v >= MOST_LISTS {
        return Err(AllocError);
    }
    let rest = list_end(words, v);
    let end = add_node(words, number, extra, rest)?;
    write_head(words, v as usize + 1, end as u64)?;
    Ok(())
}

/// Puts a number, and what the list that ends at a place has, into the lists of a variable and of all that it leads to. A refusal may
/// leave words. A chain that doesn't end is refused.
pub fn add_along(
    words: &mut Trailed,
    from: u64,
    number: u64,
    extra: usize,
) -> Result<(), AllocError>
    ensures ok { IfOk result (λ _. IsAddedAlong words.old words.new number extra from) }
    ensures adds { AddsToLists words.old words.new }
{
    let _len = words.len();
    let mut at = from;
    for _ in 0..words.count(Table::Variables) {
        add_to_list(words, at, number, extra)?;
        match next_variable(words, at) {
            Some(next) => at = next,
            None => return Ok(()),
        }
    }
    Err(AllocError)
}
