//! Names, each with a number.
ghost use Rattle.std.specs.Prelude.{◌≡◌, ℕ, List, [], length, Some, slice_get, slice_index_or, IfOk, IsTrue};
ghost use Rattle.pi_atoms.specs.Names.{HasDistinct, Gains};

use indexmap::IndexSet;
use std::alloc::{AllocError, Global};
use std::marker::Model;

/// The names of a store's atoms, each with the number of its first use. A contract sees the list of them.
pub struct Atoms {
    names: IndexSet<String>,
}

// By hand, so that letting one go is a call and not its parts at each way out.
impl Drop for Atoms {
    fn drop(self) {
        let Atoms { names: _ } = self;
    }
}

impl Model for Atoms {
    ghost use Rattle.std.specs.Prelude.{ℕ, List, map};
    ghost use Rattle.std.specs.String.{string_bytes};

    ghost Value = { List (List ℕ) };

    ghost use Rattle.pi_atoms.specs.Names.{HasDistinct};

    ghost view = { λ a. map string_bytes a.names.keys };

    ghost invariant = { λ a. HasDistinct (map string_bytes a.names.keys) };
}

impl Atoms {
    /// No names. It takes no memory.
    pub fn new(alloc: Global) -> Atoms
        ensures { result ≡ [] }
    {
        Atoms {
            names: IndexSet::new(alloc),
        }
    }

    /// The same names with the same numbers, apart.
    pub fn copied(&self) -> Result<Atoms, AllocError>
        ensures { IfOk result (λ made. made ≡ self.now) }
    {
        let names = self.names.clone()?;
        Ok(Atoms { names })
    }

    /// How many names there are.
    pub fn len(&self) -> usize
        ensures { result ≡ length self.now }
    {
        self.names.len()
    }

    /// The number of a name, which is a new one at its first use.
    pub fn number(&mut self, alloc: Global, name: &str) -> Result<u64, AllocError>
        ensures ok { IfOk result (λ k. slice_get self.new k ≡ Some name.now) }
        ensures grows { Gains self.old self.new name.now }
        ensures distinct { HasDistinct self.new }
    {
        if let Some(number) = self.names.get_index_of(name) {
            return Ok(number as u64);
        }
        let string = String::from_str(alloc, name)?;
        let (number, _) = self.names.insert_full(string)?;
        Ok(number as u64)
    }

    /// The name with this number; empty where there is none. It takes no memory.
    pub fn name(&self, number: u64) -> &str
        ensures is { (name : List ℕ) → slice_get self.now number ≡ Some name → result.now ≡ name }
        ensures else_empty { result.now ≡ slice_index_or self.now number [] }
    {
        match self.names.get_index(number as usize) {
            Some(name) => name.as_str(),
            None => "",
        }
    }

    /// Whether each number of the other ones has the same name here. It takes no memory.
    pub fn has_all(&self, other: &Atoms) -> bool
        ensures { IsTrue result → (k : ℕ) (name : List ℕ) → slice_get other.now k ≡ Some name → slice_get self.now k ≡ Some name }
    {
        if self.len() < other.len() {
            return false;
        }
        for k in 0..other.len() {
            if self.name(k as u64) != other.name(k as u64) {
                return false;
            }
        }
        true
    }
}
