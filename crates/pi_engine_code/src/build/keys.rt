//! The keys by which facts are found.
ghost use Rattle.std.specs.Prelude.{◌≡◌, ◌<◌, ◌≤◌, ℕ, Some, slice_get, IfOk};
ghost use Rattle.pi_engine_code.specs.Keyed.{shown_by, IsFactKeyed, ArePlaces, AreKeyed, StillHas};

use super::short;
use crate::code::{Code, HeadTest, Predicate};
use crate::fact_keys::FactKeys;
use crate::key::{FactPlace, FactValue};
use pi_core::CorePred;
use pi_syntax::{Decl, Mode, Modes};
use std::alloc::{AllocError, Global};

/// The keys of the facts of these predicates, which are the first ones of the tables: in each place that is a `+` in a mode
/// list.
pub(super) fn fact_keys(
    alloc: Global,
    code: &Code<'_>,
    preds: &[CorePred],
) -> Result<FactKeys, AllocError>
    ensures { IfOk result (λ keys. AreKeyed code.now.predicates.items code.now.rules.items code.now.tests.items keys) }
{
    let mut keys = FactKeys::new(alloc);
    for i in 0..preds.len() {
        let number = short(i)?;
        let pred = &preds[i];
        add_keys(alloc, code, &mut keys, number, &pred.decl)?;
    }
    Ok(keys)
}

/// Adds the keys of a predicate's facts, where it has mode lists.
fn add_keys(
    alloc: Global,
    code: &Code<'_>,
    keys: &mut FactKeys,
    number: u32,
    decl: &Decl,
) -> Result<(), AllocError>
    ensures { IfOk result (λ _. AreKeyed code.now.predicates.items code.now.rules.items code.now.tests.items keys.old →
        AreKeyed code.now.predicates.items code.now.rules.items code.now.tests.items keys.new) }
{
    match decl {
        Decl::Index(lists) => add_places(alloc, code, keys, number, lists.as_slice()),
        Decl::Plain | Decl::Import(_) => Ok(()),
    }
}

/// The same by the mode lists.
fn add_places(
    alloc: Global,
    code: &Code<'_>,
    keys: &mut FactKeys,
    number: u32,
    lists: &[Modes],
) -> Result<(), AllocError>
    ensures { IfOk result (λ _. AreKeyed code.now.predicates.items code.now.rules.items code.now.tests.items keys.old →
        AreKeyed code.now.predicates.items code.now.rules.items code.now.tests.items keys.new) }
{
    let Some(predicate) = code.predicate_there(number) else {
        return Ok(());
    };
    let mut places = Vec::new(alloc);
    for place in 0..predicate.arity {
        add_place(code, keys, &mut places, number, predicate, lists, place)?;
    }
    keys.find_by(number, places)?;
    Ok(())
}

/// Whether a place is a `+` in a mode list.
fn has_plus(lists: &[Modes], place: u32) -> bool {
    for modes in lists {
        if let Some(Mode::Plus) = modes.as_slice().get(place as usize) {
            return true;
        }
    }
    false
}

/// Adds the keys of a predicate's facts in a place that is a `+`, and the place.
fn add_place(
    code: &Code<'_>,
    keys: &mut FactKeys,
    places: &mut Vec<u32>,
    number: u32,
    predicate: &Predicate,
    lists: &[Modes],
    place: u32,
) -> Result<(), AllocError>
    ensures listed { keys.new.places ≡ keys.old.places }
    ensures still { IfOk result (λ _. StillHas keys.old keys.new) }
    ensures places { IfOk result (λ _. slice_get code.now.predicates.items number ≡ Some predicate.now →
        place < predicate.now.arity → ArePlaces code.now.predicates.items code.now.rules.items code.now.tests.items keys.old number
        places.old.items → ArePlaces code.now.predicates.items code.now.rules.items code.now.tests.items keys.new number
        places.new.items) }
{
    if !has_plus(lists, place) {
        return Ok(());
    }
    add_facts(code, keys, number, predicate, place)?;
    places.push(place)?;
    Ok(())
}

/// Adds the keys of a predicate's facts in a place.
fn add_facts(
    code: &Code<'_>,
    keys: &mut FactKeys,
    number: u32,
    predicate: &Predicate,
    place: u32,
) -> Result<(), AllocError>
    ensures listed { keys.new.places ≡ keys.old.places }
    ensures still { IfOk result (λ _. StillHas keys.old keys.new) }
    ensures keyed { IfOk result (λ _. (fact : ℕ) → predicate.now.first ≤ fact → fact < predicate.now.end →
        IsFactKeyed code.now.rules.items code.now.tests.items keys.new number place fact) }
{
    for fact in predicate.first..predicate.end {
        add_fact(code, keys, number, place, fact)?;
    }
    Ok(())
}

/// Adds the key of the fact with a number in a place.
fn add_fact(
    code: &Code<'_>,
    keys: &mut FactKeys,
    number: u32,
    place: u32,
    fact: u32,
) -> Result<(), AllocError>
    ensures listed { keys.new.places ≡ keys.old.places }
    ensures still { IfOk result (λ _. StillHas keys.old keys.new) }
    ensures keyed { IfOk result (λ _. IsFactKeyed code.now.rules.items code.now.tests.items keys.new number place fact) }
{
    let Some(rule) = code.rule(fact) else {
        return Ok(());
    };
    let Some(test) = code.test(rule.tests, place) else {
        return Ok(());
    };
    let at = FactPlace {
        predicate: number,
        place,
        value: value_of(test),
    };
    keys.add(at, fact)?;
    Ok(())
}

/// What a test says of its place.
fn value_of(test: HeadTest) -> FactValue
    ensures { result ≡ shown_by test }
{
    match test {
        HeadTest::Int(n) => FactValue::Int(n),
        HeadTest::Atom(name) => FactValue::Atom(name),
        HeadTest::Slot(_) | HeadTest::Deep => FactValue::Any,
    }
}
