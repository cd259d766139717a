//! Constraints over integers.
ghost use Rattle.std.specs.Prelude.{◌≡◌, IfOk};

use pi_terms::Series;
use std::alloc::{AllocError, Global};

/// A place of a constraint: the number of a variable, or an integer.
#[derive(Clone, Copy)]
pub enum Item {
    Var(u64),
    Int(i64),
}

/// Places of a constraint, in order.
pub type Items = Series<Item>;

/// How a sum stands to 0.
#[derive(Clone, Copy)]
pub enum Rel {
    Equal,
    Unequal,
    AtMost,
}

/// A coefficient and the number of its variable.
pub type LinTerm = (i128, u64);

/// The terms of a sum, by ascending variables.
pub type LinTerms = Series<LinTerm>;

/// A constraint. A User's Guide to Picat, 'Constraints'; the forms that all others are brought into are own.
pub enum Constraint {
    /// The sum of the terms and the constant stands so to 0.
    Linear {
        rel: Rel,
        terms: LinTerms,
        constant: i128,
    },
    /// `z` is `x * y`.
    Product {
        z: Item,
        x: Item,
        y: Item,
    },
    /// `z` is the absolute value of `x`.
    Absolute {
        z: Item,
        x: Item,
    },
    /// No two items are the same integer.
    Different(Items),
    /// The item with the number `index`, counted from 1, is `value`.
    Element {
        index: Item,
        items: Items,
        value: Item,
    },
    /// `truth` is 1 where the sum of the terms and the constant stands so to 0, and else 0.
    Reified {
        truth: Item,
        rel: Rel,
        terms: LinTerms,
        constant: i128,
    },
    /// No two items are the same integer. It says what `Different` says; its filter keeps fewer values.
    Distinct(Items),
}

// By hand, so that letting one go is a call and not its parts at each way out.
impl Drop for Constraint {
    fn drop(self) {
        match self {
            Constraint::Linear {
                rel: _,
                terms: _,
                constant: _,
            } => {}
            Constraint::Product { z: _, x: _, y: _ } => {}
            Constraint::Absolute { z: _, x: _ } => {}
            Constraint::Different(_) => {}
            Constraint::Element {
                index: _,
                items: _,
                value: _,
            } => {}
            Constraint::Reified {
                truth: _,
                rel: _,
                terms: _,
                constant: _,
            } => {}
            Constraint::Distinct(_) => {}
        }
    }
}

impl Constraint {
    /// Another constraint that says the same.
    pub fn copy(&self, alloc: Global) -> Result<Constraint, AllocError>
        ensures ok { IfOk result (λ made. made ≡ self.now) }
    {
        match self {
            Constraint::Linear {
                rel,
                terms,
                constant,
            } => Ok(Constraint::Linear {
                rel: *rel,
                terms: terms.copy(alloc)?,
                constant: *constant,
            }),
            Constraint::Product { z, x, y } => Ok(Constraint::Product {
                z: *z,
                x: *x,
                y: *y,
            }),
            Constraint::Absolute { z, x } => Ok(Constraint::Absolute { z: *z, x: *x }),
            Constraint::Different(items) => Ok(Constraint::Different(items.copy(alloc)?)),
            Constraint::Element {
                index,
                items,
                value,
            } => Ok(Constraint::Element {
                index: *index,
                items: items.copy(alloc)?,
                value: *value,
            }),
            Constraint::Reified {
                truth,
                rel,
                terms,
                constant,
            } => Ok(Constraint::Reified {
                truth: *truth,
                rel: *rel,
                terms: terms.copy(alloc)?,
                constant: *constant,
            }),
            Constraint::Distinct(items) => Ok(Constraint::Distinct(items.copy(alloc)?)),
        }
    }
}

/// Constraints, in order.
pub type Constraints = Series<Constraint>;
