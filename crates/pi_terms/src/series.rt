//! Values in order, as callers hold and change them.
ghost use Rattle.std.specs.Prelude.{◌≡◌, ◌-◌, ◌∷◌, [], ◌++◌, List, length, IfOk, IfErr, OnErr, slice_get, slice_set, take, option_copied};

use std::alloc::{AllocError, AllocFailed, Global};
use std::marker::Model;

/// Values in order. A contract sees the list of them.
pub struct Series<T> {
    items: Vec<T>,
}

// By hand, so that letting one go is a call and not its parts at each way out.
impl<T: Drop> Drop for Series<T> {
    fn drop(self) {
        let Series { items: _ } = self;
    }
}

impl<T> Model for Series<T> {
    ghost use Rattle.std.specs.Prelude.{List};

    ghost Value = { List T };

    ghost view = { λ a. a.items.items };
}

impl<T> Series<T> {
    /// No values.
    pub fn new(alloc: Global) -> Series<T>
        ensures { result ≡ [] }
    {
        Series {
            items: Vec::new(alloc),
        }
    }

    /// The values that a vector holds.
    pub fn from_vec(items: Vec<T>) -> Series<T>
        ensures { result ≡ items.items }
    {
        Series { items }
    }

    /// One more value at the end.
    pub fn push(&mut self, value: T) -> Result<(), AllocFailed<T>>
        ensures ok { IfOk result (λ _. self.new ≡ self.old ++ value ∷ []) }
        ensures err { OnErr result (self.new ≡ self.old) }
        ensures returned { IfErr result (λ refused. refused.value ≡ value) }
    {
        self.items.push(value)
    }

    /// Puts a value in the place of the last one, where there is one.
    pub fn set_last(&mut self, value: T)
    where
        T: Drop,
        ensures { self.new ≡ slice_set self.old (length self.old - 1) value }
    {
        let count = self.items.len();
        if count > 0 {
            self.items[count - 1] = value;
        }
    }

    /// Puts a value in the place with this number, where there is one.
    pub fn set(&mut self, i: usize, value: T)
    where
        T: Drop,
        ensures { self.new ≡ slice_set self.old i value }
    {
        if i < self.items.len() {
            self.items[i] = value;
        }
    }

    /// Takes the last value, where there is one.
    pub fn pop(&mut self) -> Option<T>
        ensures rest { self.new ≡ take (length self.old - 1) self.old }
        ensures value { result ≡ slice_get self.old (length self.old - 1) }
    {
        self.items.pop()
    }

    /// Leaves the first `count` values, and all where they are fewer.
    pub fn truncate(&mut self, count: usize)
    where
        T: Drop,
        ensures { self.new ≡ take count self.old }
    {
        self.items.truncate(count);
    }

    /// How many values there are.
    pub fn len(&self) -> usize
        ensures { result ≡ length self.now }
    {
        self.items.len()
    }

    /// The value with this number, counted from 0.
    pub fn get(&self, i: usize) -> Option<&T>
        ensures { option_copied result ≡ slice_get self.now i }
    {
        self.items.as_slice().get(i)
    }

    /// Another series of the same values.
    pub fn copy(&self, alloc: Global) -> Result<Series<T>, AllocError>
    where
        T: Copy,
        ensures ok { IfOk result (λ made. made ≡ self.now) }
    {
        let items = Vec::from_slice(alloc, self.as_slice())?;
        Ok(Series { items })
    }

    /// The values, from the first.
    pub fn as_slice(&self) -> &[T]
        ensures { result.now ≡ self.now }
    {
        self.items.as_slice()
    }
}

/// Values in order behind one pointer: it takes eight bytes where a `Series` takes 24, and one of no values has its box too.
/// A contract sees the list of them.
pub struct BoxedSeries<T> {
    series: Box<Series<T>>,
}

// By hand, so that letting one go is a call and not its parts at each way out.
impl<T: Drop> Drop for BoxedSeries<T> {
    fn drop(self) {
        let BoxedSeries { series: _ } = self;
    }
}

impl<T> Model for BoxedSeries<T> {
    ghost use Rattle.std.specs.Prelude.{List};

    ghost Value = { List T };

    ghost view = { λ a. a.series.value };
}

impl<T> BoxedSeries<T> {
    /// No values.
    pub fn new(alloc: Global) -> Result<BoxedSeries<T>, AllocError>
    where
        T: Drop,
        ensures { IfOk result (λ made. made ≡ []) }
    {
        let series = Box::new(alloc, Series::new(alloc))?;
        Ok(BoxedSeries { series })
    }

    /// One more value at the end.
    pub fn push(&mut self, value: T) -> Result<(), AllocFailed<T>>
        ensures ok { IfOk result (λ _. self.new ≡ self.old ++ value ∷ []) }
        ensures err { OnErr result (self.new ≡ self.old) }
        ensures returned { IfErr result (λ refused. refused.value ≡ value) }
    {
        self.series.push(value)
    }

    /// How many values there are.
    pub fn len(&self) -> usize
        ensures { result ≡ length self.now }
    {
        self.series.len()
    }

    /// The values, from the first.
    pub fn as_slice(&self) -> &[T]
        ensures { result.now ≡ self.now }
    {
        self.series.as_slice()
    }
}
