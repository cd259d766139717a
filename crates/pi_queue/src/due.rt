//! Constraints that wait to be run.
ghost use Rattle.std.specs.Prelude.{◌≡◌, ◌≢◌, ◌∷◌, ◌++◌, [], IfOk, MatchOption, AllPairs, Contains};

use std::alloc::{AllocError, Global};
use std::collections::{BTreeSet, VecDeque};
use std::marker::Model;

/// Numbers of constraints that wait, each once, the one that waits longest first. A contract sees the list of them. (Own.)
#[derive(Drop)]
pub struct Due {
    queue: VecDeque<u64>,
    waiting: BTreeSet<u64>,
}

impl Model for Due {
    ghost use Rattle.std.specs.Prelude.{List, ℕ};
    ghost use Rattle.std.specs.Ordering.{nat_cmp};
    ghost use Rattle.std.specs.BTreeSet.{contains};
    ghost use Rattle.pi_queue.specs.Waiting.{IsKept};

    ghost Value = { List ℕ };

    ghost view = { λ a. a.queue.items };

    ghost invariant = { λ a. IsKept a.queue.items (contains nat_cmp a.waiting) };
}

impl Due {
    /// None.
    pub fn new(alloc: Global) -> Due
        ensures { result ≡ [] }
    {
        Due {
            queue: VecDeque::new(alloc),
            waiting: BTreeSet::new(alloc),
        }
    }

    /// Takes the one that waits longest.
    pub fn take(&mut self) -> Option<u64>
        ensures first { MatchOption result (self.old ≡ []) (λ i. self.old ≡ i ∷ self.new) }
        ensures different { AllPairs (λ i j. i ≢ j) self.old }
    {
        match self.queue.pop_front() {
            None => None,
            Some(i) => {
                self.waiting.remove(&i);
                Some(i)
            }
        }
    }

    /// Puts one behind the others, where it doesn't wait yet.
    pub fn add(&mut self, i: u64) -> Result<(), AllocError>
        ensures there { IfOk result (λ _. Contains self.old i → self.new ≡ self.old) }
        ensures new { IfOk result (λ _. (Contains self.old i → ⊥) → self.new ≡ self.old ++ i ∷ []) }
    {
        if self.waiting.contains(&i) {
            return Ok(());
        }
        self.put(i)
    }

    /// The same of one that doesn't wait.
    fn put(&mut self, i: u64) -> Result<(), AllocError>
        requires { Contains self.old i → ⊥ }
        ensures { IfOk result (λ _. self.new ≡ self.old ++ i ∷ []) }
    {
        self.queue.reserve(1)?;
        self.waiting.insert(i)?;
        self.queue.push_back_reserved(i);
        Ok(())
    }
}
