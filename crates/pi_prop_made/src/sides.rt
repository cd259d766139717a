//! Sides of products, and operands of `abs`: each is a variable.
ghost use Rattle.std.specs.Prelude.{◌≡◌, Some, suc, length, false, IfOk};
ghost use Rattle.pi_constraints.specs.declared.constraint.Rel.{Rel};
ghost use Rattle.pi_prop_spec.specs.PostingSums.{of_variable, difference, Ascend};
ghost use Rattle.pi_prop_spec.specs.Limits.{refusal_by};
ghost use Rattle.pi_prop_spec.specs.Steps.{Made, linear, side};
ghost use Rattle.pi_prop_made.specs.Making.{refusal_for, Shows, Reads, AllBelow, with_constraint};

use crate::limits::{Limit, MAX_TERMS};
use crate::making::Making;
use crate::stop::SumStop;
use crate::sum::JoinedSum;
use pi_constraints::Rel;
use std::alloc::{AllocError, Global};

impl Making {
    /// A variable that stands in no sum so far gets the value of a sum: their difference is 0.
    fn define(&mut self, alloc: Global, variable: u64, sum: JoinedSum) -> Result<(), AllocError>
        ensures { IfOk result (λ _. (m : Made) → Shows self.old m → AllBelow variable sum.terms →
            Shows self.new (with_constraint m (linear Rel.Equal (difference (of_variable variable) sum)))) }
    {
        let limit = limit_with_one_more(&sum);
        let Ok(own) = JoinedSum::variable(alloc, variable) else {
            return Err(AllocError);
        };
        match own.subtract(sum) {
            Ok(apart) => {
                self.post_sum(alloc, Rel::Equal, &apart)?;
                Ok(())
            }
            Err(SumStop::Wide) => {
                self.refuse(limit);
                Ok(())
            }
            Err(SumStop::Memory) => Err(AllocError),
        }
    }

    /// The variable that a sum is, or a new one with its value.
    pub fn side(&mut self, alloc: Global, sum: JoinedSum) -> Result<u64, AllocError>
        ensures { IfOk result (λ x. (m : Made) → Shows self.old m → AllBelow m.unused sum.terms → Reads (side sum) m x self.new) }
    {
        match sum.as_variable() {
            Some(variable) => Ok(variable),
            None => {
                let variable = self.new_variable()?;
                self.define(alloc, variable, sum)?;
                Ok(variable)
            }
        }
    }
}

/// The limit that a constraint with one more term than a sum doesn't keep, where one of its numbers needs more than 128 bits.
fn limit_with_one_more(sum: &JoinedSum) -> Limit
    ensures count { Some (refusal_for result) ≡ refusal_by (suc (length sum.now.terms)) false }
    ensures ascend { Ascend 0 sum.now.terms }
{
    if sum.len() < MAX_TERMS {
        Limit::Width
    } else {
        Limit::Terms
    }
}
