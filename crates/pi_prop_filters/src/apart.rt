//! Whether places have different variables, as it is seen without memory.
ghost use Rattle.std.specs.Prelude.{◌≡◌, ◌↔◌, ◌+◌, ◌<◌, ◌≤◌, ◌∷◌, ◌++◌, [], IsTrue, IfSome, Some, length, slice_get};
ghost use Rattle.pi_constraints.specs.declared.constraint.Item.{Item};
ghost use Rattle.pi_constraints.specs.Constraint.{IsSum};
ghost use Rattle.pi_prop_spec.specs.Places.{sum_places};
ghost use Rattle.pi_prop_filters.specs.Variables.{AreApart, AreApartBelow, StandsBefore, IsNew};

use pi_constraints::{Item, LinTerm};

/// How many places are compared with all before them.
const FEW: usize = 16;

/// Whether no two places have one variable: where the variables ascend, and else of the first few places alone. It takes no
/// memory.
pub(crate) fn are_apart(items: &[Item]) -> bool
    ensures { IsTrue result → AreApart items.now }
{
    let mut next = 0;
    for i in 0..items.len() {
        match next_behind(items, i, next) {
            Some(behind) => next = behind,
            None => return false,
        }
    }
    true
}

/// The number above all variables up to place `i`, where `next` is above those before it; None where a place before it has its
/// variable, or may have it.
fn next_behind(items: &[Item], i: usize, next: u128) -> Option<u128>
    requires { i < length items.now }
    ensures { IfSome result (λ behind. AreApartBelow items.now i next → AreApartBelow items.now (i + 1) behind) }
{
    match items[i] {
        Item::Var(variable) => next_behind_variable(items, i, variable, next),
        Item::Int(_) => Some(next),
    }
}

/// The same, of a place with a variable.
fn next_behind_variable(items: &[Item], i: usize, variable: u64, next: u128) -> Option<u128>
    requires { slice_get items.now i ≡ Some (Item.Var variable) }
    ensures { IfSome result (λ behind. AreApartBelow items.now i next → AreApartBelow items.now (i + 1) behind) }
{
    let number = u128::from(variable);
    if next <= number {
        return Some(number + 1);
    }
    if i > FEW {
        return None;
    }
    if stands_before(items, i, variable) {
        return None;
    }
    Some(next)
}

/// Whether one of the first `count` places has a variable.
fn stands_before(items: &[Item], count: usize, variable: u64) -> bool
    requires { count ≤ length items.now }
    ensures { IsTrue result ↔ StandsBefore items.now count variable }
{
    for k in 0..count {
        if is_variable(items[k], variable) {
            return true;
        }
    }
    false
}

/// Whether an item is a variable.
fn is_variable(item: Item, variable: u64) -> bool
    ensures { IsTrue result ↔ (item ≡ Item.Var variable) }
{
    match item {
        Item::Var(n) => n == variable,
        Item::Int(_) => false,
    }
}

/// Whether none of the places has the variable of an item.
fn is_new(items: &[Item], item: Item) -> bool
    ensures { IsTrue result → IsNew items.now item }
{
    match item {
        Item::Var(variable) => !stands_before(items, items.len(), variable),
        Item::Int(_) => true,
    }
}

/// Whether no two places of `element` have one variable.
pub(crate) fn is_element_apart(index: Item, items: &[Item], value: Item) -> bool
    ensures { IsTrue result → AreApart (index ∷ (items.now ++ value ∷ [])) }
{
    if !is_new(&[value], index) {
        return false;
    }
    if !is_new(items, index) {
        return false;
    }
    if !is_new(items, value) {
        return false;
    }
    are_apart(items)
}

/// Whether the truth of a reified sum isn't the variable of a term.
pub(crate) fn is_truth_apart(truth: Item, terms: &[LinTerm]) -> bool
    requires { IsSum 0 terms.now }
    ensures { IsTrue result → AreApart (truth ∷ sum_places terms.now) }
{
    for i in 0..terms.len() {
        let (_, variable) = terms[i];
        if is_variable(truth, variable) {
            return false;
        }
    }
    true
}
