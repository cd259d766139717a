//! Agents in their table.
ghost use Rattle.std.specs.Prelude.{◌≡◌, slice_index, IfOk, OnErr};
ghost use Rattle.pi_region.specs.Back.{Advances};
ghost use Rattle.pi_store_blocks.specs.AgentTable.{end_of, is_alive, AddsAgent, with_ended};

use crate::agents::write::write_agent;
use crate::written::give_up;
use pi_constraints::{Ref, Watches};
use pi_region::{Table, Trailed};
use std::alloc::AllocError;

/// How many agents can be ended. Ending one past them is want of memory.
const MOST_ENDED: u64 = 576_460_752_303_423_488;

/// Where the words of the agent with this number end; 0 for a number past the last agent. It takes no memory.
pub fn agent_end(words: &Trailed, n: u64) -> usize
    ensures { result ≡ end_of (slice_index words.now.agents n) }
{
    (words.get(Table::Agents, n as usize) / 2) as usize
}

/// Whether the agent with this number is there and alive. It takes no memory.
pub fn is_alive(words: &Trailed, n: u64) -> bool
    ensures { result ≡ is_alive (slice_index words.now.agents n) }
{
    words.get(Table::Agents, n as usize) % 2 == 1
}

/// One more agent, alive.
pub fn add_agent(
    words: &mut Trailed,
    call: Ref,
    rule: u64,
    watches: &Watches,
) -> Result<(), AllocError>
    ensures ok { IfOk result (λ _. AddsAgent words.old words.new call rule watches.now) }
    ensures err { OnErr result (words.new ≡ words.old) }
{
    let start = words.len();
    let _end = write_agent(words, call, rule, watches)?;
    let word = words.len() as u64 * 2 + 1;
    match words.push(Table::Agents, word) {
        Ok(()) => Ok(()),
        Err(refused) => Err(give_up(words, start, refused)),
    }
}

/// Ends the agent with this number, where it is alive.
pub fn end_agent(words: &mut Trailed, n: u64) -> Result<(), AllocError>
    ensures ok { IfOk result (λ _. words.new ≡ with_ended words.old n) }
    ensures advances { IfOk result (λ _. Advances words.old words.new) }
    ensures err { OnErr result (words.new ≡ words.old) }
{
    let _len = words.len();
    let word = words.get(Table::Agents, n as usize);
    if word % 2 != 1 {
        return Ok(());
    }
    if n >= MOST_ENDED {
        return Err(AllocError);
    }
    words.replace(Table::Agents, n as usize, word - 1)?;
    Ok(())
}
