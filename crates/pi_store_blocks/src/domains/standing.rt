//! Domains that are read where they stand.
ghost use Rattle.std.specs.Prelude.{◌≡◌, ◌<◌, Some, length, slice_get};
ghost use Rattle.pi_store_blocks.specs.Block.{block_at};
ghost use Rattle.pi_store_blocks.specs.Domain.{domain_in, is_domain, spans_of};

use crate::block::Block;
use crate::domains::check::may_follow;
use crate::domains::read::read_span;
use pi_constraints::{MAX_VALUE, Span};
use pi_region::Trailed;

/// How many spans the domain has whose block ends at a place. It looks once at each span, and takes no memory.
pub fn span_count(words: &Trailed, end: usize) -> usize
    ensures { result ≡ length (domain_in (block_at words.now.region end)) }
{
    let block = Block::at(words, end);
    if are_spans(&block) {
        return block.len() / 2;
    }
    0
}

/// The span with a number, counted from 0, of the domain whose block ends at a place. It takes no memory.
pub fn span(words: &Trailed, end: usize, k: usize) -> Span
    ensures { k < length (domain_in (block_at words.now.region end)) →
        slice_get (domain_in (block_at words.now.region end)) k ≡ Some result }
{
    let block = Block::at(words, end);
    if k >= block.len() / 2 {
        return Span { lo: 0, hi: 0 };
    }
    read_span(&block, k)
}

/// Whether the spans between the numbers of a block are a domain.
fn are_spans(block: &Block) -> bool
    ensures { result ≡ is_domain (spans_of block.now) }
{
    let mut least = -MAX_VALUE;
    for k in 0..block.len() / 2 {
        let span = read_span(block, k);
        if !may_follow(least, &span) {
            return false;
        }
        least = span.hi + 2;
    }
    true
}
