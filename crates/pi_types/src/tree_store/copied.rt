//! Copies of what a state holds.
ghost use Rattle.std.specs.Prelude.{◌≡◌, IfOk};

use crate::tree_store::queue::Queue;
use pi_constraints::{Activation, Constraint};
use pi_terms::Series;
use std::alloc::{AllocError, Global};

/// A value of which there can be another.
pub trait Copied: Drop {
    /// Another one that is the same.
    fn copied(&self, alloc: Global) -> Result<Self, AllocError>
        ensures ok { IfOk result (λ made. made ≡ self.now) };
}

impl Copied for Constraint {
    fn copied(&self, alloc: Global) -> Result<Constraint, AllocError> {
        self.copy(alloc)
    }
}

impl Copied for Activation {
    fn copied(&self, alloc: Global) -> Result<Activation, AllocError> {
        self.copy(alloc)
    }
}

/// Other values that are the same, one for each.
pub fn copied_all<T: Copied>(alloc: Global, values: &Series<T>) -> Result<Series<T>, AllocError>
    ensures ok { IfOk result (λ made. made ≡ values.now) }
{
    let mut made = Vec::new(alloc);
    for value in values.as_slice() {
        made.push(value.copied(alloc)?)?;
    }
    Ok(Series::from_vec(made))
}

/// The same for values that wait.
pub fn copied_queue<T: Copied>(alloc: Global, values: &Queue<T>) -> Result<Queue<T>, AllocError>
    ensures ok { IfOk result (λ made. made ≡ values.now) }
{
    let mut made = Queue::new(alloc);
    for i in 0..values.len() {
        let Some(value) = values.get(i) else {
            return Ok(made);
        };
        made.push(value.copied(alloc)?)?;
    }
    Ok(made)
}
