//! Numbers that are met one after another.
ghost use Rattle.std.specs.Prelude.{◌≡◌, ◌<◌, ◌+◌, [], length, IfOk, OnErr, Contains};
ghost use Rattle.pi_terms.specs.Copy.{place_in};
ghost use Rattle.pi_terms.specs.Numbers.{noted};

use std::alloc::{AllocError, Global};
use std::collections::HashMap;
use std::marker::Model;

/// Numbers of variables, each once, in the order in which they were met. A contract sees the list of them.
pub struct Numbers {
    met: Vec<u64>,
    // The place of each.
    places: HashMap<u64, usize>,
}

// By hand, so that letting one go is a call and not its parts at each way out.
impl Drop for Numbers {
    fn drop(self) {
        let Numbers { met: _, places: _ } = self;
    }
}

impl Model for Numbers {
    ghost use Rattle.std.specs.Prelude.{List, ℕ, nat_eq, ◌≡◌};
    ghost use Rattle.std.specs.List.{position};
    ghost use Rattle.std.specs.HashMap.{get};

    ghost Value = { List ℕ };

    ghost view = { λ a. a.met.items };

    ghost invariant = { λ a. (n : ℕ) → get nat_eq a.places n ≡ position (nat_eq n) a.met.items };
}

impl Numbers {
    /// None is met yet.
    pub fn new(alloc: Global) -> Numbers
        ensures { result ≡ [] }
    {
        Numbers {
            met: Vec::new(alloc),
            places: HashMap::new(alloc),
        }
    }

    /// Meets a number, perhaps again.
    pub fn meet(&mut self, n: u64) -> Result<(), AllocError>
        ensures ok { IfOk result (λ _. self.new ≡ noted self.old n) }
        ensures err { OnErr result (self.new ≡ self.old) }
    {
        if self.places.contains_key(&n) {
            return Ok(());
        }
        // Room first, so that nothing is refused once the map has the number.
        self.met.reserve(1)?;
        self.places.insert(n, self.met.len())?;
        self.met.push(n)?;
        Ok(())
    }

    /// How many were met.
    pub fn len(&self) -> usize
        ensures { result ≡ length self.now }
    {
        self.met.len()
    }

    /// The place of a number that was met, counted from 0.
    pub fn place(&self, n: u64) -> usize
        requires { Contains self.now n }
        ensures place { result ≡ place_in self.now n }
        ensures within { result < length self.now }
    {
        self.places[&n]
    }

    /// The number of one, counted from 1; of one that wasn't met the next number.
    pub fn number_of(&self, n: u64) -> usize
        ensures { result ≡ place_in self.now n + 1 }
    {
        match self.places.get(&n) {
            Some(place) => place + 1,
            None => self.met.len() + 1,
        }
    }

    /// Those that were met, in order.
    pub fn as_slice(&self) -> &[u64]
        ensures { result.now ≡ self.now }
    {
        self.met.as_slice()
    }
}
