//! Which facts show what in which places.
ghost use Rattle.std.specs.Prelude.{◌≡◌, ◌==◌, ◌≤◌, ◌<◌, ℕ, [], cond, IfOk};
ghost use Rattle.pi_engine_code.specs.Keys.{AddsKey, Has, places_in};

use crate::key::{FactKey, FactPlace};
use std::alloc::{AllocError, Global};
use std::collections::{BTreeSet, HashMap};

/// What facts show in places, by their numbers, and the places by which those of a predicate are found.
#[derive(Drop)]
pub struct FactKeys {
    keys: BTreeSet<FactKey>,
    places: HashMap<u32, Vec<u32>>,
}

impl FactKeys {
    /// No facts.
    pub fn new(alloc: Global) -> FactKeys
        ensures { (predicate : ℕ) → places_in result predicate ≡ [] }
    {
        FactKeys {
            keys: BTreeSet::new(alloc),
            places: HashMap::new(alloc),
        }
    }

    /// Notes what the fact with a number shows in a place.
    pub fn add(&mut self, at: FactPlace, number: u32) -> Result<(), AllocError>
        ensures places { self.new.places ≡ self.old.places }
        ensures adds { IfOk result (λ _. AddsKey self.old self.new at number) }
    {
        self.keys.insert(FactKey::new(at, number))?;
        Ok(())
    }

    /// Says by which places the facts of a predicate are found.
    pub fn find_by(&mut self, predicate: u32, places: Vec<u32>) -> Result<(), AllocError>
        ensures keys { self.new.keys ≡ self.old.keys }
        ensures places { IfOk result (λ _. (p : ℕ) → places_in self.new p ≡ cond (predicate == p) places.items (places_in self.old p)) }
    {
        self.places.insert(predicate, places)?;
        Ok(())
    }

    /// The places by which the facts of a predicate are found.
    pub fn places_of(&self, predicate: u32) -> &[u32]
        ensures { result.now ≡ places_in self.now predicate }
    {
        match self.places.get(&predicate) {
            Some(places) => places.as_slice(),
            None => &[],
        }
    }

    /// The first number from one on, up to an end, of a fact that shows this in its place: the end where there is none.
    pub fn next(&self, at: FactPlace, from: u32, end: u32) -> u32
        ensures from_on { from ≤ result }
        ensures up_to_end { from ≤ end → result ≤ end }
        ensures found { result < end → Has self.now at result }
        ensures least { (n : ℕ) → from ≤ n → n < end → Has self.now at n → result ≤ n }
    {
        if end < from {
            return from;
        }
        let low = FactKey::new(at, from);
        let high = FactKey::new(at, end);
        match self.keys.range(low..high).next() {
            Some(key) => key.number(),
            None => end,
        }
    }
}
