//! The truths of expressions that are made of others.
ghost use Rattle.std.specs.Prelude.{◌≡◌, IfOk};
ghost use Rattle.pi_constraints.specs.declared.constraint.Item.{Item};
ghost use Rattle.pi_prop_spec.specs.Operands.{and, or, implies};
ghost use Rattle.pi_prop_spec.specs.PostingSums.{of_item, difference};
ghost use Rattle.pi_prop_spec.specs.Steps.{Made};
ghost use Rattle.pi_prop_spec.specs.Truths.{truth_of_standing, truth_of_negation, truth_of_joined};
ghost use Rattle.pi_prop_made.specs.Making.{Shows, Reads};
ghost use Rattle.pi_prop_made.specs.ToZero.{rel_of, sum_for};
ghost use Rattle.pi_prop_read.specs.TruthNodes.{connective_of};

use crate::truths::nodes::Connective;
use crate::truths::sums::{
    ONE, difference_of, post_apart, post_both_apart, post_one_of, post_two_apart,
};
use pi_constraints::Item;
use pi_prop_made::{Making, ToZero};
use std::alloc::{AllocError, Global};

/// The truth of `#~ X`.
pub(crate) fn truth_of_negation(
    alloc: Global,
    making: &mut Making,
    x: Item,
) -> Result<Item, AllocError>
    ensures { IfOk result (λ t. (m : Made) → Shows making.old m → Reads (truth_of_negation x) m t making.new) }
{
    let variable = making.new_truth(alloc)?;
    let truth = Item::Var(variable);
    post_one_of(alloc, making, truth, x)?;
    Ok(truth)
}

/// The truth of two expressions that are joined.
pub(crate) fn truth_of_joined(
    alloc: Global,
    making: &mut Making,
    connective: Connective,
    x: Item,
    y: Item,
) -> Result<Item, AllocError>
    ensures { IfOk result (λ t. (m : Made) → Shows making.old m → Reads (truth_of_joined (connective_of connective) x y) m t making.new) }
{
    match connective {
        Connective::And => Ok(truth_of_both(alloc, making, x, y)?),
        Connective::Or => Ok(truth_of_either(alloc, making, x, y)?),
        Connective::Either => Ok(compared(alloc, making, ToZero::Unequal, x, y)?),
        Connective::Implies => Ok(truth_of_implication(alloc, making, x, y)?),
        Connective::Equivalent => Ok(compared(alloc, making, ToZero::Equal, x, y)?),
    }
}

/// The truth of `X #/\ Y`.
fn truth_of_both(alloc: Global, making: &mut Making, x: Item, y: Item) -> Result<Item, AllocError>
    ensures { IfOk result (λ t. (m : Made) → Shows making.old m → Reads (truth_of_joined and x y) m t making.new) }
{
    let variable = making.new_truth(alloc)?;
    let truth = Item::Var(variable);
    post_apart(alloc, making, truth, x)?;
    post_apart(alloc, making, truth, y)?;
    post_both_apart(alloc, making, x, y, truth)?;
    Ok(truth)
}

/// The truth of `X #\/ Y`.
fn truth_of_either(alloc: Global, making: &mut Making, x: Item, y: Item) -> Result<Item, AllocError>
    ensures { IfOk result (λ t. (m : Made) → Shows making.old m → Reads (truth_of_joined or x y) m t making.new) }
{
    let variable = making.new_truth(alloc)?;
    let truth = Item::Var(variable);
    post_apart(alloc, making, x, truth)?;
    post_apart(alloc, making, y, truth)?;
    post_two_apart(alloc, making, truth, x, y)?;
    Ok(truth)
}

/// The truth of `X #=> Y`.
fn truth_of_implication(
    alloc: Global,
    making: &mut Making,
    x: Item,
    y: Item,
) -> Result<Item, AllocError>
    ensures { IfOk result (λ t. (m : Made) → Shows making.old m → Reads (truth_of_joined implies x y) m t making.new) }
{
    let variable = making.new_truth(alloc)?;
    let truth = Item::Var(variable);
    post_two_apart(alloc, making, ONE, x, truth)?;
    post_apart(alloc, making, y, truth)?;
    post_both_apart(alloc, making, truth, x, y)?;
    Ok(truth)
}

/// Whether X - Y stands so to 0.
fn compared(
    alloc: Global,
    making: &mut Making,
    how: ToZero,
    x: Item,
    y: Item,
) -> Result<Item, AllocError>
    ensures { IfOk result (λ t. (m : Made) → Shows making.old m →
        Reads (truth_of_standing (rel_of how) (sum_for how (difference (of_item x) (of_item y)))) m t making.new) }
{
    let sum = difference_of(alloc, x, y)?;
    let truth = making.truth_of_standing(alloc, how, &sum)?;
    Ok(truth)
}
