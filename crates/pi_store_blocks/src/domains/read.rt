//! Domains that are read.
ghost use Rattle.std.specs.Prelude.{◌≡◌, ◌+◌, ◌*◌, ◌<◌, ◌^◌, IfOk, slice_index};
ghost use Rattle.pi_store_blocks.specs.Block.{block_at};
ghost use Rattle.pi_store_blocks.specs.Numbers.{moved_down};
ghost use Rattle.pi_store_blocks.specs.Domain.{domain_in, spans_of, span_at};

use crate::block::Block;
use crate::domains::check::is_domain;
use crate::numbers::moved_down;
use pi_constraints::{Domain, Span};
use pi_region::Trailed;
use std::alloc::{AllocError, Global};

/// The domain whose block ends at a place. One whose numbers are no domain reads as the empty one.
pub fn read_domain(alloc: Global, words: &Trailed, end: usize) -> Result<Domain, AllocError>
    ensures { IfOk result (λ found. found ≡ domain_in (block_at words.now.region end)) }
{
    let spans = read_spans(alloc, &Block::at(words, end))?;
    if is_domain(&spans) {
        return Ok(Domain::new(spans));
    }
    Ok(Domain::new(Vec::new(alloc)))
}

/// The spans between the numbers of a block.
fn read_spans(alloc: Global, block: &Block) -> Result<Vec<Span>, AllocError>
    ensures { IfOk result (λ made. made.items ≡ spans_of block.now) }
{
    let mut spans = Vec::new(alloc);
    for k in 0..block.len() / 2 {
        spans.push(read_span(block, k))?;
    }
    Ok(spans)
}

/// The span with this number.
pub(crate) fn read_span(block: &Block, k: usize) -> Span
    requires { 2 * k + 1 < 2 ^ 64 }
    ensures { result ≡ span_at block.now k }
{
    Span {
        lo: moved_down(block.get(2 * k)),
        hi: moved_down(block.get(2 * k + 1)),
    }
}
