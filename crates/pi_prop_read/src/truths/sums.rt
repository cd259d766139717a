//! What is posted of sums of truths.
ghost use Rattle.std.specs.Prelude.{◌≡◌, pos, IfOk};
ghost use Rattle.pi_constraints.specs.declared.constraint.Item.{Item};
ghost use Rattle.pi_prop_spec.specs.PostingSums.{Sum, of_number, of_item, added, difference};
ghost use Rattle.pi_prop_spec.specs.Steps.{Made};
ghost use Rattle.pi_prop_made.specs.Steps.{ShowsStep};
ghost use Rattle.pi_prop_made.specs.Making.{Shows, with_constraint};
ghost use Rattle.pi_prop_read.specs.Sums.{apart, two_apart, both_apart, one_of};

use pi_constraints::{Item, Rel};
use pi_prop_made::{JoinedSum, Making, SumStop};
use std::alloc::{AllocError, Global};

/// The integer 1.
pub(crate) const ONE: Item = Item::Int(1);

/// X - Y <= 0.
pub(crate) fn post_apart(
    alloc: Global,
    making: &mut Making,
    x: Item,
    y: Item,
) -> Result<(), AllocError>
    ensures { IfOk result (λ _. (m : Made) → Shows making.old m → Shows making.new (with_constraint m (apart x y))) }
{
    let sum = without(alloc, alone(alloc, x)?, y)?;
    making.post_sum(alloc, Rel::AtMost, &sum)?;
    Ok(())
}

/// X - Y - Z <= 0.
pub(crate) fn post_two_apart(
    alloc: Global,
    making: &mut Making,
    x: Item,
    y: Item,
    z: Item,
) -> Result<(), AllocError>
    ensures { IfOk result (λ _. (m : Made) → Shows making.old m → Shows making.new (with_constraint m (two_apart x y z))) }
{
    let sum = without(alloc, alone(alloc, x)?, y)?;
    let sum = without(alloc, sum, z)?;
    making.post_sum(alloc, Rel::AtMost, &sum)?;
    Ok(())
}

/// X + Y - Z - 1 <= 0.
pub(crate) fn post_both_apart(
    alloc: Global,
    making: &mut Making,
    x: Item,
    y: Item,
    z: Item,
) -> Result<(), AllocError>
    ensures { IfOk result (λ _. (m : Made) → Shows making.old m → Shows making.new (with_constraint m (both_apart x y z))) }
{
    let sum = with(alloc, alone(alloc, x)?, y)?;
    let sum = without(alloc, sum, z)?;
    let sum = without(alloc, sum, ONE)?;
    making.post_sum(alloc, Rel::AtMost, &sum)?;
    Ok(())
}

/// X + Y - 1 = 0.
pub(crate) fn post_one_of(
    alloc: Global,
    making: &mut Making,
    x: Item,
    y: Item,
) -> Result<(), AllocError>
    ensures { IfOk result (λ _. (m : Made) → Shows making.old m → Shows making.new (with_constraint m (one_of x y))) }
{
    let sum = with(alloc, alone(alloc, x)?, y)?;
    let sum = without(alloc, sum, ONE)?;
    making.post_sum(alloc, Rel::Equal, &sum)?;
    Ok(())
}

/// X - Y.
pub(crate) fn difference_of(alloc: Global, x: Item, y: Item) -> Result<JoinedSum, AllocError>
    ensures { IfOk result (λ u. u ≡ difference (of_item x) (of_item y)) }
{
    Ok(without(alloc, alone(alloc, x)?, y)?)
}

/// X - 1.
pub(crate) fn less_one(alloc: Global, x: Item) -> Result<JoinedSum, AllocError>
    ensures { IfOk result (λ u. u ≡ difference (of_item x) (of_number (pos 1))) }
{
    Ok(without(alloc, alone(alloc, x)?, ONE)?)
}

/// The sum that an item is.
fn alone(alloc: Global, item: Item) -> Result<JoinedSum, AllocError>
    ensures { IfOk result (λ u. u ≡ of_item item) }
{
    match item {
        Item::Var(variable) => made(JoinedSum::variable(alloc, variable)),
        Item::Int(number) => Ok(JoinedSum::number(alloc, number as i128)),
    }
}

/// A sum and an item.
fn with(alloc: Global, sum: JoinedSum, item: Item) -> Result<JoinedSum, AllocError>
    ensures { IfOk result (λ u. u ≡ added sum (of_item item)) }
{
    let item = alone(alloc, item)?;
    made(sum.add(item))
}

/// A sum without an item.
fn without(alloc: Global, sum: JoinedSum, item: Item) -> Result<JoinedSum, AllocError>
    ensures { IfOk result (λ u. u ≡ difference sum (of_item item)) }
{
    let item = alone(alloc, item)?;
    made(sum.subtract(item))
}

/// A step that was made. A sum of three truths and a 1 is never too wide.
fn made(step: Result<JoinedSum, SumStop>) -> Result<JoinedSum, AllocError>
    ensures { IfOk result (λ u. (w : Sum) → ShowsStep step w → u ≡ w) }
{
    match step {
        Ok(sum) => Ok(sum),
        Err(_) => Err(AllocError),
    }
}
