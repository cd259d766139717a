//! Agents that are written.
ghost use Rattle.std.specs.Prelude.{◌≡◌, ◌∷◌, [], length, take, IfOk, OnErr};
ghost use Rattle.pi_region.specs.Image.{appended};
ghost use Rattle.pi_store_blocks.specs.Heap.{Appends};
ghost use Rattle.pi_store_blocks.specs.Events.{watch_words, HaveSlots};
ghost use Rattle.pi_store_blocks.specs.Agent.{call_words, agent_words, WritesAgent};

use crate::agents::events::{watch_number, watched};
use crate::numbers::{first_half, second_half};
use crate::written::give_up;
use pi_constraints::{Ref, Watch, Watches};
use pi_region::{Trailed, data};
use std::alloc::AllocError;

/// How many events an agent may wait for. More is want of memory.
const MOST_WATCHES: u64 = 576_460_752_303_423_488;

/// Writes an agent, alive, and answers where its words end.
pub fn write_agent(
    words: &mut Trailed,
    call: Ref,
    rule: u64,
    watches: &Watches,
) -> Result<usize, AllocError>
    ensures ok { IfOk result (λ end. WritesAgent words.old words.new call rule watches.now end) }
    ensures err { OnErr result (words.new ≡ words.old) }
{
    let start = words.len();
    match append_agent(words, call, rule, watches.as_slice()) {
        Ok(()) => Ok(words.len()),
        Err(refused) => Err(give_up(words, start, refused)),
    }
}

/// The words of an agent.
fn append_agent(
    words: &mut Trailed,
    call: Ref,
    rule: u64,
    watches: &[Watch],
) -> Result<(), AllocError>
    ensures ok { IfOk result (λ _. words.new ≡ appended words.old (agent_words call rule watches.now)) }
    ensures slots { IfOk result (λ _. HaveSlots watches.now) }
    ensures appends { Appends words.old words.new }
{
    append_watches(words, watches)?;
    append_call(words, call, rule, watches.len() as u64)?;
    Ok(())
}

/// The events that an agent waits for.
fn append_watches(words: &mut Trailed, watches: &[Watch]) -> Result<(), AllocError>
    ensures ok { IfOk result (λ _. words.new ≡ appended words.old (watch_words watches.now)) }
    ensures slots { IfOk result (λ _. HaveSlots watches.now) }
    ensures appends { Appends words.old words.new }
{
    for watch in watches {
        append_watch(words, *watch)?;
    }
    Ok(())
}

/// One of them.
fn append_watch(words: &mut Trailed, watch: Watch) -> Result<(), AllocError>
    ensures ok { IfOk result (λ _. words.new ≡ appended words.old (watch_words (watch ∷ []))) }
    ensures slots { HaveSlots (watch ∷ []) }
    ensures err { OnErr result (words.new ≡ words.old) }
{
    words.append_two(watched(watch).number, data(watch_number(watch)))?;
    Ok(())
}

/// The call, the number of the rule in two halves, and how many events stand below them.
fn append_call(words: &mut Trailed, call: Ref, rule: u64, count: u64) -> Result<(), AllocError>
    ensures ok { IfOk result (λ _. words.new ≡ appended words.old (call_words call rule count)) }
    ensures appends { Appends words.old words.new }
{
    if count >= MOST_WATCHES {
        return Err(AllocError);
    }
    words.append_two(call.number, data(first_half(rule)))?;
    words.append_two(data(second_half(rule)), data(count))?;
    Ok(())
}
