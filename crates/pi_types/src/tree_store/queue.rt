//! A queue of values that wait.
ghost use Rattle.std.specs.Prelude.{◌≡◌, [], ◌∷◌, ◌++◌, Some, IfOk, OnErr, slice_get, drop, length, option_copied};

use std::alloc::{AllocError, AllocFailed, Global};
use std::collections::VecDeque;
use std::marker::Model;

/// Values that wait, the first to be taken first. A contract sees the list of them.
#[derive(Drop)]
pub struct Queue<T> {
    items: VecDeque<T>,
}

impl<T> Model for Queue<T> {
    ghost use Rattle.std.specs.Prelude.{List};

    ghost Value = { List T };

    ghost view = { λ a. a.items.items };
}

impl<T> Queue<T> {
    /// No values.
    pub fn new(alloc: Global) -> Queue<T>
        ensures { result ≡ [] }
    {
        Queue {
            items: VecDeque::new(alloc),
        }
    }

    /// The values of a vector, the first of it to be taken first.
    pub fn from_vec(items: Vec<T>) -> Queue<T>
        ensures { result ≡ items.items }
    {
        Queue {
            items: VecDeque::from_vec(items),
        }
    }

    /// One more value, to be taken after those that wait.
    pub fn push(&mut self, value: T) -> Result<(), AllocFailed<T>>
        ensures ok { IfOk result (λ _. self.new ≡ self.old ++ value ∷ []) }
        ensures err { OnErr result (self.new ≡ self.old) }
    {
        self.items.push_back(value)
    }

    /// Drops the first value, where there is one.
    pub fn drop_first(&mut self)
    where
        T: Drop,
        ensures { self.new ≡ drop 1 self.old }
    {
        self.items.pop_front();
    }

    /// How many values wait.
    pub fn len(&self) -> usize
        ensures { result ≡ length self.now }
    {
        self.items.len()
    }

    /// The value with this number, counted from 0 at the one to be taken first.
    pub fn get(&self, i: usize) -> Option<&T>
        ensures { option_copied result ≡ slice_get self.now i }
    {
        self.items.get(i)
    }
}
