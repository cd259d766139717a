//! Domains that are written.
ghost use Rattle.std.specs.Prelude.{◌≡◌, ◌∷◌, [], map, IfOk, OnErr};
ghost use Rattle.pi_region.specs.Entry.{data_of};
ghost use Rattle.pi_region.specs.Image.{appended};
ghost use Rattle.pi_store_blocks.specs.Heap.{Appends};
ghost use Rattle.pi_store_blocks.specs.Block.{Writes};
ghost use Rattle.pi_store_blocks.specs.Domain.{bounds_of};

use crate::numbers::moved_up;
use crate::written::{close, give_up};
use pi_constraints::{Domain, Span};
use pi_region::{Trailed, data};
use std::alloc::AllocError;

/// Writes a domain, and answers where its block ends.
pub fn write_domain(words: &mut Trailed, domain: &Domain) -> Result<usize, AllocError>
    ensures ok { IfOk result (λ end. Writes words.old words.new (bounds_of domain.now) end) }
    ensures err { OnErr result (words.new ≡ words.old) }
{
    let start = words.len();
    match append_spans(words, domain.spans()) {
        Ok(()) => Ok(close(words, start)?),
        Err(refused) => Err(give_up(words, start, refused)),
    }
}

/// The bounds of spans.
fn append_spans(words: &mut Trailed, spans: &[Span]) -> Result<(), AllocError>
    ensures ok { IfOk result (λ _. words.new ≡ appended words.old (map data_of (bounds_of spans.now))) }
    ensures appends { Appends words.old words.new }
{
    for span in spans {
        append_span(words, span)?;
    }
    Ok(())
}

/// The bounds of a span.
fn append_span(words: &mut Trailed, span: &Span) -> Result<(), AllocError>
    ensures ok { IfOk result (λ _. words.new ≡ appended words.old (map data_of (bounds_of (span.now ∷ [])))) }
    ensures err { OnErr result (words.new ≡ words.old) }
{
    let lo = moved_up(i128::from(span.lo));
    let hi = moved_up(i128::from(span.hi));
    words.append_two(data(lo), data(hi))?;
    Ok(())
}
