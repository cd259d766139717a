//! How many places a constraint has, and whether it is within its limits.
ghost use Rattle.std.specs.Prelude.{◌≡◌, ◌↔◌, ◌≤◌, ◌≤ℤ◌, IsTrue, length, nat_abs, pos};
ghost use Rattle.pi_constraints.specs.Constraint.{most_items, IsItem, AreItems, IsSum, IsSumWithinLimits, IsWithinLimits};
ghost use Rattle.pi_prop_spec.specs.Places.{places_of};

use pi_constraints::{Constraint, Item, LinTerm, MAX_VALUE};

/// The most terms of a sum, or items of a constraint. The number is own.
const MOST_ITEMS: usize = 1_048_576;

/// The greatest coefficient; the least is its negative. The number is own.
const MAX_COEFFICIENT: i128 = 1_099_511_627_776;

/// The greatest constant of a sum; the least is its negative. The number is own.
const MAX_CONSTANT: i128 = 1_267_650_600_228_229_401_496_703_205_376;

/// How many places a constraint has.
pub fn place_count(constraint: &Constraint) -> usize
    requires { IsWithinLimits constraint.now }
    ensures { result ≡ length (places_of constraint.now) }
{
    match constraint {
        Constraint::Linear { terms, .. } => terms.len(),
        Constraint::Product { .. } => 3,
        Constraint::Absolute { .. } => 2,
        Constraint::Different(items) => items.len(),
        Constraint::Element { items, .. } => items.len() + 2,
        Constraint::Reified { terms, .. } => terms.len() + 1,
        Constraint::Distinct(items) => items.len(),
    }
}

/// Whether a constraint is within the limits of those that are posted.
pub fn is_within_limits(constraint: &Constraint) -> bool
    ensures { IsTrue result ↔ IsWithinLimits constraint.now }
{
    match constraint {
        Constraint::Linear {
            terms,
            constant,
            ..
        } => is_sum_within_limits(terms.as_slice(), *constant),
        Constraint::Product { z, x, y } => is_item(*z) && is_item(*x) && is_item(*y),
        Constraint::Absolute { z, x } => is_item(*z) && is_item(*x),
        Constraint::Different(items) => are_few_items(items.as_slice()),
        Constraint::Element {
            index,
            items,
            value,
        } => is_item(*index) && is_item(*value) && are_few_items(items.as_slice()),
        Constraint::Reified {
            truth,
            terms,
            constant,
            ..
        } => is_item(*truth) && is_sum_within_limits(terms.as_slice(), *constant),
        Constraint::Distinct(items) => are_few_items(items.as_slice()),
    }
}

/// Whether items are no more than a constraint can have, and each is one.
fn are_few_items(items: &[Item]) -> bool
    ensures { IsTrue result ↔ ((length items.now ≤ most_items) × AreItems items.now) }
{
    items.len() <= MOST_ITEMS && are_items(items)
}

/// Whether each integer among items is a value that a domain can have.
fn are_items(items: &[Item]) -> bool
    ensures { IsTrue result ↔ AreItems items.now }
{
    for i in 0..items.len() {
        if !is_item(items[i]) {
            return false;
        }
    }
    true
}

/// Whether an item is a variable, or a value that a domain can have.
fn is_item(item: Item) -> bool
    ensures { IsTrue result ↔ IsItem item }
{
    match item {
        Item::Var(_) => true,
        Item::Int(n) => -MAX_VALUE <= n && n <= MAX_VALUE,
    }
}

/// Whether terms and a constant are within the limits of a sum.
fn is_sum_within_limits(terms: &[LinTerm], constant: i128) -> bool
    ensures { IsTrue result ↔ IsSumWithinLimits terms.now constant }
{
    if terms.is_empty() {
        return false;
    }
    if terms.len() > MOST_ITEMS {
        return false;
    }
    if !is_narrow(constant, MAX_CONSTANT) {
        return false;
    }
    is_sum(terms)
}

/// Whether a number lies between another one and its negative.
fn is_narrow(n: i128, most: i128) -> bool
    requires { pos 0 ≤ℤ most }
    ensures { IsTrue result ↔ (nat_abs n ≤ nat_abs most) }
{
    -most <= n && n <= most
}

/// Whether terms have coefficients other than 0 that are narrow enough, and ascending variables.
fn is_sum(terms: &[LinTerm]) -> bool
    ensures { IsTrue result ↔ IsSum 0 terms.now }
{
    let mut least = 0;
    for i in 0..terms.len() {
        let (coefficient, variable) = terms[i];
        if coefficient == 0 {
            return false;
        }
        if !is_narrow(coefficient, MAX_COEFFICIENT) {
            return false;
        }
        let variable = u128::from(variable);
        if variable < least {
            return false;
        }
        least = variable + 1;
    }
    true
}
