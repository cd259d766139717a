//! Where the goals stand by which names are called.
ghost use Rattle.std.specs.Prelude.{◌≡◌, ◌==◌, ◌&&◌, ℕ, cond, Some, None, IfOk};
ghost use Rattle.pi_engine_code.specs.Callables.{place_in};

use std::alloc::{AllocError, Global};
use std::collections::HashMap;

/// What a term names that is called: the number that the store has for its name, and its number of arguments.
#[derive(Clone, Copy, PartialEq, Eq, Hash)]
pub struct Callable {
    pub name: u64,
    pub arity: u64,
}

/// The places of the goals by which names are called.
#[derive(Drop)]
pub struct Callables {
    places: HashMap<Callable, u32>,
}

impl Callables {
    /// No places.
    pub fn new(alloc: Global) -> Callables
        ensures { (n k : ℕ) → place_in result n k ≡ None }
    {
        Callables {
            places: HashMap::new(alloc),
        }
    }

    /// Adds the place of a name's goal.
    pub fn add(&mut self, name: u64, arity: u64, place: u32) -> Result<(), AllocError>
        ensures { IfOk result (λ _. (n k : ℕ) → place_in self.new n k ≡
            cond ((name == n) && (arity == k)) (Some place) (place_in self.old n k)) }
    {
        self.places.insert(Callable { name, arity }, place)?;
        Ok(())
    }

    /// The place of the goal by which a name is called with so many arguments, where there is one.
    pub fn place(&self, name: u64, arity: u64) -> Option<u32>
        ensures { result ≡ place_in self.now name arity }
    {
        self.places.get(&Callable { name, arity }).copied()
    }
}
