//! Which places have one variable.
ghost use Rattle.std.specs.Prelude.{◌≡◌, IfOk, Some, ℕ, cond, nat_eq, unwrap_or, length};
ghost use Rattle.std.specs.HashMap.{get};
ghost use Rattle.pi_prop_filters.specs.Variables.{AreRoots, IsRootOf};

use pi_constraints::Item;
use std::alloc::{AllocError, Global};
use std::collections::HashMap;

/// The place that stands for each place: the first one of its variable, and of an integer the place itself.
pub(crate) fn roots_of(alloc: Global, items: &[Item]) -> Result<Vec<usize>, AllocError>
    ensures { IfOk result (λ made. AreRoots items.now (length items.now) made.items) }
{
    let mut by_variable = HashMap::new(alloc);
    let mut roots = Vec::new(alloc);
    for k in 0..items.len() {
        let root = root_of(&mut by_variable, items[k], k)?;
        roots.push(root)?;
    }
    Ok(roots)
}

/// The place that stands for place `k` with this item.
fn root_of(by_variable: &mut HashMap<u64, usize>, item: Item, k: usize) -> Result<usize, AllocError>
    ensures { IfOk result (λ root. IsRootOf item k root (get nat_eq by_variable.old) (get nat_eq by_variable.new)) }
{
    match item {
        Item::Var(variable) => root_of_variable(by_variable, variable, k),
        Item::Int(_) => Ok(k),
    }
}

/// The place that stands for a variable, which place `k` has. Where no place had it before, it is this one from now on.
fn root_of_variable(
    by_variable: &mut HashMap<u64, usize>,
    variable: u64,
    k: usize,
) -> Result<usize, AllocError>
    ensures root { IfOk result (λ root. root ≡ unwrap_or (get nat_eq by_variable.old variable) k) }
    ensures known { IfOk result (λ root. (w : ℕ) →
        get nat_eq by_variable.new w ≡ cond (nat_eq variable w) (Some root) (get nat_eq by_variable.old w)) }
{
    if let Some(root) = by_variable.get(&variable) {
        return Ok(*root);
    }
    by_variable.insert(variable, k)?;
    Ok(k)
}
