//! What was made so far.
ghost use Rattle.std.specs.Prelude.{◌≡◌, ℤ, Some, None, suc, IfOk};
ghost use Rattle.pi_constraints.specs.declared.constraint.Constraint.{Constraint};
ghost use Rattle.pi_prop_spec.specs.Steps.{Made, linear};
ghost use Rattle.pi_prop_spec.specs.Limits.{refusal_of, first_refusal};
ghost use Rattle.pi_prop_spec.specs.Postings.{nothing_made, posting_unless};
ghost use Rattle.pi_prop_made.specs.Making.{refusal_for, IsNumber, Shows, with_constraint, with_variable};
ghost use Rattle.pi_prop_made.specs.Finished.{ShowsFinished};

use crate::limits::{Limit, within};
use crate::posting::Posting;
use crate::sum::JoinedSum;
use pi_constraints::{Constraint, Constraints, Rel};
use std::alloc::{AllocError, Global};

/// What a reading has made so far: new variables, and constraints in the order of their making, until one keeps a limit no
/// more. From then on only that limit is kept.
#[derive(Drop)]
pub struct Making {
    unused: u64,
    constraints: Constraints,
    refused: Option<Limit>,
}

impl Making {
    /// Nothing, where the next new variable gets this number.
    pub fn new(alloc: Global, unused: u64) -> Making
        ensures { Shows result (nothing_made unused) }
    {
        Making {
            unused,
            constraints: Constraints::new(alloc),
            refused: None,
        }
    }

    /// A new variable, by its number; a number past 64 bits is want of memory.
    pub fn new_variable(&mut self) -> Result<u64, AllocError>
        ensures { IfOk result (λ n. (m : Made) → Shows self.old m → (n ≡ m.unused) × Shows self.new (with_variable m)) }
    {
        let variable = self.unused;
        let Some(next) = variable.checked_add(1) else {
            return Err(AllocError);
        };
        self.unused = next;
        Ok(variable)
    }

    /// A constraint was made that keeps a limit no more.
    pub(crate) fn refuse(&mut self, limit: Limit)
        ensures { (m : Made) (c : Constraint) → Shows self.old m → refusal_of c ≡ Some (refusal_for limit) →
            Shows self.new (with_constraint m c) }
    {
        match self.refused {
            None => self.refused = Some(limit),
            Some(_) => (),
        }
    }

    /// A constraint that keeps its limits.
    pub(crate) fn keep(&mut self, constraint: Constraint) -> Result<(), AllocError>
        ensures { IfOk result (λ _. (m : Made) → refusal_of constraint ≡ None → Shows self.old m →
            Shows self.new (with_constraint m constraint)) }
    {
        match self.refused {
            None => {
                self.constraints.push(constraint)?;
                Ok(())
            }
            Some(_) => Ok(()),
        }
    }

    /// The terms of a sum and a constant, where it has 128 bits, stand so to 0.
    pub(crate) fn post_linear(
        &mut self,
        alloc: Global,
        rel: Rel,
        sum: &JoinedSum,
        constant: Option<i128>,
    ) -> Result<(), AllocError>
        ensures { IfOk result (λ _. (m : Made) (k : ℤ) → Shows self.old m → IsNumber constant k →
            Shows self.new (with_constraint m (Constraint.Linear rel sum.now.terms k))) }
    {
        match within(sum, constant) {
            Ok(constant) => {
                let terms = sum.terms(alloc)?;
                self.keep(Constraint::Linear {
                    rel,
                    terms,
                    constant,
                })?;
                Ok(())
            }
            Err(limit) => {
                self.refuse(limit);
                Ok(())
            }
        }
    }

    /// A sum that stands so to 0.
    pub fn post_sum(&mut self, alloc: Global, rel: Rel, sum: &JoinedSum) -> Result<(), AllocError>
        ensures { IfOk result (λ _. (m : Made) → Shows self.old m → Shows self.new (with_constraint m (linear rel sum.now))) }
    {
        self.post_linear(alloc, rel, sum, Some(sum.constant()))?;
        Ok(())
    }

    /// What was made behind so many variables, or the first limit that a constraint doesn't keep.
    pub fn finish(self, made: u64) -> Result<Posting, Limit>
        ensures { (m : Made) → Shows self m → ShowsFinished result (posting_unless (first_refusal m.constraints) made m) }
    {
        match self.refused {
            None => Ok(Posting {
                fresh: self.unused.saturating_sub(made),
                list: self.constraints,
            }),
            Some(limit) => Err(limit),
        }
    }
}
