//! Lists that are read.
ghost use Rattle.std.specs.Prelude.{◌≡◌, ◌↔◌, ◌++◌, ℕ, Contains, IfOk};
ghost use Rattle.pi_store_blocks.specs.Node.{numbers_at, ends_at, IsListed};

use crate::lists::node::Node;
use pi_region::Trailed;
use std::alloc::{AllocError, Global};

/// The numbers of the list that ends at a place, in no order; one that stands in it more than once may be there as often.
pub fn listed(alloc: Global, words: &Trailed, end: usize) -> Result<Vec<u64>, AllocError>
    ensures { IfOk result (λ found. (k : ℕ) → Contains found.items k ↔ IsListed words.now.region end k) }
{
    let mut found = Vec::new(alloc);
    let mut ends = Vec::new(alloc);
    ends.push(end)?;
    while let Some(at) = ends.pop() {
        enter(words, at, &mut found, &mut ends)?;
    }
    Ok(found)
}

/// Puts the number of the node that ends at a place behind those that were found, and where its lists end on a stack. No node ends
/// at 0.
fn enter(
    words: &Trailed,
    end: usize,
    found: &mut Vec<u64>,
    ends: &mut Vec<usize>,
) -> Result<(), AllocError>
    ensures found { IfOk result (λ _. found.new.items ≡ found.old.items ++ numbers_at words.now.region end) }
    ensures ends { IfOk result (λ _. ends.new.items ≡ ends.old.items ++ ends_at words.now.region end) }
{
    if end == 0 {
        return Ok(());
    }
    let node = Node::at(words, end);
    found.push(node.number)?;
    ends.push(node.first)?;
    ends.push(node.second)?;
    Ok(())
}
