//! Agents that are read.
ghost use Rattle.std.specs.Prelude.{◌≡◌, ◌+◌, ◌<◌, ◌≤◌, ◌^◌, IfOk, length, take, drop, slice_index};
ghost use Rattle.pi_region.specs.Entry.{value_of};
ghost use Rattle.pi_store_blocks.specs.Events.{watch_of, watches_of};
ghost use Rattle.pi_store_blocks.specs.Agent.{call_at, rule_at, watches_at};

use crate::agents::events::watch_of;
use crate::numbers::whole;
use pi_constraints::{Ref, Watch, Watches};
use pi_region::{Trailed, value};
use pi_terms::Series;
use std::alloc::{AllocError, Global};
use std::cmp::min;

/// The call of the agent whose words end at a place. It takes no memory.
pub fn agent_call(words: &Trailed, end: usize) -> Ref
    ensures { result ≡ call_at words.now.region end }
{
    Ref {
        number: words.word(end.saturating_sub(4)),
    }
}

/// The number of its rule. It takes no memory.
pub fn agent_rule(words: &Trailed, end: usize) -> u64
    ensures { result ≡ rule_at words.now.region end }
{
    let first = value(words.word(end.saturating_sub(3)));
    let second = value(words.word(end.saturating_sub(2)));
    whole(first, second)
}

/// The events that it waits for.
pub fn read_watches(alloc: Global, words: &Trailed, end: usize) -> Result<Watches, AllocError>
    ensures { IfOk result (λ found. found ≡ watches_at words.now.region end) }
{
    let last = min(end.saturating_sub(4), words.len());
    let count = value(words.word(end.saturating_sub(1)));
    let start = last.saturating_sub(2 * count as usize);
    watches_between(alloc, words, start, last)
}

/// The events whose words stand between two places.
fn watches_between(
    alloc: Global,
    words: &Trailed,
    start: usize,
    last: usize,
) -> Result<Watches, AllocError>
    requires { last ≤ length words.now.region }
    ensures { IfOk result (λ found. found ≡ watches_of (drop start (take last words.now.region))) }
{
    let mut watches = Series::new(alloc);
    for k in 0..last.saturating_sub(start) / 2 {
        watches.push(watch_at(words, start + 2 * k))?;
    }
    Ok(watches)
}

/// The event whose words stand from a place on.
fn watch_at(words: &Trailed, at: usize) -> Watch
    requires { at + 1 < 2 ^ 64 }
    ensures { result ≡ watch_of (record { number = slice_index words.now.region at }) (value_of (slice_index words.now.region (at + 1))) }
{
    let term = Ref {
        number: words.word(at),
    };
    watch_of(term, value(words.word(at + 1)))
}
