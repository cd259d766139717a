//! Terms that are put into a store from their last node to their first.
ghost use Rattle.std.specs.Prelude.{◌≡◌, ◌≤◌, IfOk, length, reverse, drop};
ghost use Rattle.pi_terms.specs.Tree.{Trees, comp, drop_trees};
ghost use Rattle.pi_terms.specs.TermCells.{take_trees};
ghost use Rattle.pi_constraints.specs.Store.{IsTerm, Stays};
ghost use Rattle.pi_unify.specs.Copying.{AreBuilt};

use pi_constraints::{Ref, StateStore};
use std::alloc::{AllocError, Global};

/// Puts a compound whose arguments were put last, the first one last of all. It takes them off.
pub fn put_compound<S: StateStore>(
    alloc: Global,
    s: &mut S,
    name: &str,
    count: usize,
    built: &mut Vec<Ref>,
) -> Result<Ref, AllocError>
    ensures stays { Stays (S.seen s.old) (S.seen s.new) }
    ensures ok { IfOk result (λ made. (ts : Trees) → AreBuilt (S.seen s.old) built.old.items ts →
        IsTerm (S.seen s.new) made (comp name.now (take_trees count ts)) ×
        AreBuilt (S.seen s.new) built.new.items (drop_trees count ts)) }
{
    let from = built.len().saturating_sub(count);
    let args = from_behind(alloc, built, from)?;
    let made = s.put_comp(name, &args)?;
    built.truncate(from);
    Ok(made)
}

/// The Refs from a number on, the last one first.
fn from_behind(alloc: Global, built: &[Ref], from: usize) -> Result<Vec<Ref>, AllocError>
    requires { from ≤ length built.now }
    ensures { IfOk result (λ args. args.items ≡ reverse (drop from built.now)) }
{
    built[from..].iter().rev().copied().collect(alloc)
}
