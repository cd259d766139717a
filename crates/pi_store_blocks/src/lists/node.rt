//! Nodes of lists.
ghost use Rattle.std.specs.Prelude.{◌≡◌, IfOk, OnErr};
ghost use Rattle.pi_store_blocks.specs.Node.{list_within, node_at, WritesNode};

use pi_region::{Trailed, data, value};
use std::alloc::AllocError;
use std::cmp::min;

/// Numbers and places below this fit a node. More is want of memory.
const MOST: u64 = 576_460_752_303_423_488;

/// A node of a list: a number, and where two other lists end.
#[derive(Clone, Copy)]
pub struct Node {
    pub number: u64,
    pub first: usize,
    pub second: usize,
}

impl Node {
    /// What the node that ends at a place says. It takes no memory.
    pub fn at(words: &Trailed, end: usize) -> Node
        ensures { result ≡ node_at words.now.region end }
    {
        let start = end.saturating_sub(3);
        Node {
            number: value(words.word(start)),
            first: list_within(words, end.saturating_sub(2), start),
            second: list_within(words, end.saturating_sub(1), start),
        }
    }
}

/// The place that a word says, where it isn't past another one; else that one.
fn list_within(words: &Trailed, place: usize, most: usize) -> usize
    ensures { result ≡ list_within words.now.region place most }
{
    min(value(words.word(place)) as usize, most)
}

/// A node at the end of the region: a number, and where two other lists end. It answers where its own list ends.
pub fn add_node(
    words: &mut Trailed,
    number: u64,
    first: usize,
    second: usize,
) -> Result<usize, AllocError>
    ensures ok { IfOk result (λ end. WritesNode words.old words.new number first second end) }
    ensures err { OnErr result (words.new ≡ words.old) }
{
    if number >= MOST {
        return Err(AllocError);
    }
    if first as u64 >= MOST {
        return Err(AllocError);
    }
    if second as u64 >= MOST {
        return Err(AllocError);
    }
    words.append_three(data(number), data(first as u64), data(second as u64))?;
    Ok(words.len())
}
