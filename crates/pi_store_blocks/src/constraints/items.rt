//! Items of constraints as numbers.
ghost use Rattle.std.specs.Prelude.{◌≡◌, ◌<◌, ◌^◌, map, drop, IfOk};
ghost use Rattle.pi_region.specs.Entry.{data_of};
ghost use Rattle.pi_region.specs.Image.{appended};
ghost use Rattle.pi_store_blocks.specs.Heap.{Appends};
ghost use Rattle.pi_store_blocks.specs.Items.{item_number, item_of, items_of, item_numbers};

use crate::block::Block;
use crate::numbers::{moved_down, moved_up};
use pi_constraints::{Item, Items};
use pi_region::{Trailed, data};
use pi_terms::Series;
use std::alloc::{AllocError, Global};

/// Numbers of variables below this are told apart.
const VARIABLES: u64 = 288_230_376_151_711_744;

/// An item as a number.
pub fn item_number(item: Item) -> u64
    ensures is { result ≡ item_number item }
    ensures small { result < 2 ^ 59 }
{
    match item {
        Item::Var(n) => n % VARIABLES * 2,
        Item::Int(n) => moved_up(i128::from(n)) * 2 + 1,
    }
}

/// The item that a number says.
pub fn item_of(number: u64) -> Item
    requires { number < 2 ^ 59 }
    ensures { result ≡ item_of number }
{
    if number % 2 == 0 {
        Item::Var(number / 2)
    } else {
        Item::Int(moved_down(number / 2))
    }
}

/// Items, one number each.
pub fn append_items(words: &mut Trailed, items: &[Item]) -> Result<(), AllocError>
    ensures ok { IfOk result (λ _. words.new ≡ appended words.old (map data_of (item_numbers items.now))) }
    ensures appends { Appends words.old words.new }
{
    for item in items {
        words.append(data(item_number(*item)))?;
    }
    Ok(())
}

/// The items from a place of a block on.
pub fn read_items(alloc: Global, block: &Block, from: usize) -> Result<Items, AllocError>
    ensures { IfOk result (λ made. made ≡ items_of (drop from block.now)) }
{
    let mut items = Series::new(alloc);
    for k in from..block.len() {
        items.push(item_of(block.get(k)))?;
    }
    Ok(items)
}
