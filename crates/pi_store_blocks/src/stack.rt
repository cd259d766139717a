//! The stack of what was put so far.
ghost use Rattle.std.specs.Prelude.{◌≡◌, ◌≤◌, ◌-◌, IfOk, OnErr, length, reverse, drop, take};

use pi_constraints::Ref;
use std::alloc::{AllocError, Global};

/// Takes so many Refs off the end, or all where there are fewer, and answers them with the last one first.
pub fn take_last(alloc: Global, built: &mut Vec<Ref>, count: usize) -> Result<Vec<Ref>, AllocError>
    ensures taken { IfOk result (λ args. args.items ≡ reverse (drop (length built.old.items - count) built.old.items)) }
    ensures left { IfOk result (λ _. built.new.items ≡ take (length built.old.items - count) built.old.items) }
    ensures err { OnErr result (built.new ≡ built.old) }
{
    let from = built.len().saturating_sub(count);
    let args = from_behind(alloc, built, from)?;
    built.truncate(from);
    Ok(args)
}

/// The Refs from a number on, the last one first.
fn from_behind(alloc: Global, built: &[Ref], from: usize) -> Result<Vec<Ref>, AllocError>
    requires { from ≤ length built.now }
    ensures { IfOk result (λ args. args.items ≡ reverse (drop from built.now)) }
{
    built[from..].iter().rev().copied().collect(alloc)
}
