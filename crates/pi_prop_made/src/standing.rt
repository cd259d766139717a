//! Sums that stand so to 0: what is posted of them, and the truth of it.
ghost use Rattle.std.specs.Prelude.{◌≡◌, ◌∷◌, [], None, IfOk};
ghost use Rattle.pi_constraints.specs.declared.constraint.Rel.{Rel};
ghost use Rattle.pi_constraints.specs.declared.constraint.Item.{Item};
ghost use Rattle.pi_constraints.specs.declared.constraint.Constraint.{Constraint};
ghost use Rattle.pi_prop_spec.specs.Steps.{Made};
ghost use Rattle.pi_prop_spec.specs.Limits.{refusal_of};
ghost use Rattle.pi_prop_spec.specs.Relations.{posts_never, posts_standing};
ghost use Rattle.pi_prop_spec.specs.Truths.{bit, truth_variable_is, new_truth, truth_of_standing};
ghost use Rattle.pi_prop_made.specs.Making.{Shows, Reads, with_constraint};
ghost use Rattle.pi_prop_made.specs.ToZero.{rel_of, constant_for, sum_for, posts_number, reified_by};

use crate::limits::within;
use crate::making::Making;
use crate::sum::JoinedSum;
use crate::to_zero::ToZero;
use pi_constraints::{Constraint, Item, LinTerms, Rel};
use std::alloc::{AllocError, Global};

impl Making {
    /// A sum stands so to 0. One without terms posts nothing where it does, and else what is never so.
    pub fn post_standing(
        &mut self,
        alloc: Global,
        how: ToZero,
        sum: &JoinedSum,
    ) -> Result<(), AllocError>
        ensures { IfOk result (λ _. (m : Made) → Shows self.old m →
            Reads (posts_standing (rel_of how) (sum_for how sum.now)) m tt self.new) }
    {
        if sum.len() == 0 {
            self.post_number(alloc, how, sum.constant())?;
            Ok(())
        } else {
            self.post_terms(alloc, how, sum)?;
            Ok(())
        }
    }

    /// An item that is 1 where a sum stands so to 0, and else 0.
    pub fn truth_of_standing(
        &mut self,
        alloc: Global,
        how: ToZero,
        sum: &JoinedSum,
    ) -> Result<Item, AllocError>
        ensures { IfOk result (λ x. (m : Made) → Shows self.old m →
            Reads (truth_of_standing (rel_of how) (sum_for how sum.now)) m x self.new) }
    {
        if sum.len() == 0 {
            Ok(truth_item(how.holds(sum.constant())))
        } else {
            Ok(self.reified(alloc, how, sum)?)
        }
    }

    /// A variable is 0 or 1.
    pub fn post_truth(&mut self, alloc: Global, variable: u64) -> Result<(), AllocError>
        ensures { IfOk result (λ _. (m : Made) → Shows self.old m → Reads (truth_variable_is variable) m (Item.Var variable) self.new) }
    {
        self.post_single(alloc, 1, variable, -1)?;
        self.post_single(alloc, -1, variable, 0)?;
        Ok(())
    }

    /// A new variable that is 0 or 1.
    pub fn new_truth(&mut self, alloc: Global) -> Result<u64, AllocError>
        ensures { IfOk result (λ n. (m : Made) → Shows self.old m → Reads new_truth m (Item.Var n) self.new) }
    {
        let variable = self.new_variable()?;
        self.post_truth(alloc, variable)?;
        Ok(variable)
    }

    /// A number stands so to 0.
    fn post_number(&mut self, alloc: Global, how: ToZero, number: i128) -> Result<(), AllocError>
        ensures { IfOk result (λ _. (m : Made) → Shows self.old m →
            Reads (posts_number (rel_of how) (constant_for how number)) m tt self.new) }
    {
        if how.holds(number) {
            Ok(())
        } else {
            self.post_never(alloc)?;
            Ok(())
        }
    }

    /// What is never so, over a new variable.
    fn post_never(&mut self, alloc: Global) -> Result<(), AllocError>
        ensures { IfOk result (λ _. (m : Made) → Shows self.old m → Reads posts_never m tt self.new) }
    {
        let variable = self.new_variable()?;
        self.post_single(alloc, 1, variable, 0)?;
        self.post_single(alloc, -1, variable, 1)?;
        Ok(())
    }

    /// A coefficient times a variable, and a constant, are at most 0.
    fn post_single(
        &mut self,
        alloc: Global,
        coefficient: i128,
        variable: u64,
        constant: i128,
    ) -> Result<(), AllocError>
        ensures { IfOk result (λ _. (m : Made) → refusal_of (Constraint.Linear Rel.AtMost ((coefficient, variable) ∷ []) constant) ≡
            None → Shows self.old m → Shows self.new (with_constraint m
            (Constraint.Linear Rel.AtMost ((coefficient, variable) ∷ []) constant))) }
    {
        let mut terms = LinTerms::new(alloc);
        terms.push((coefficient, variable))?;
        self.keep(Constraint::Linear {
            rel: Rel::AtMost,
            terms,
            constant,
        })?;
        Ok(())
    }

    /// A sum with terms stands so to 0.
    fn post_terms(&mut self, alloc: Global, how: ToZero, sum: &JoinedSum) -> Result<(), AllocError>
        ensures { IfOk result (λ _. (m : Made) → Shows self.old m →
            Shows self.new (with_constraint m (Constraint.Linear (rel_of how) sum.now.terms (constant_for how sum.now.constant)))) }
    {
        self.post_linear(alloc, how.rel(), sum, how.constant(sum.constant()))?;
        Ok(())
    }

    /// A new truth, of a sum with terms.
    fn reified(&mut self, alloc: Global, how: ToZero, sum: &JoinedSum) -> Result<Item, AllocError>
        ensures { IfOk result (λ x. (m : Made) → Shows self.old m →
            Reads (reified_by (rel_of how) sum.now.terms (constant_for how sum.now.constant)) m x self.new) }
    {
        let truth = self.new_truth(alloc)?;
        self.post_reified(alloc, truth, how, sum)?;
        Ok(Item::Var(truth))
    }

    fn post_reified(
        &mut self,
        alloc: Global,
        truth: u64,
        how: ToZero,
        sum: &JoinedSum,
    ) -> Result<(), AllocError>
        ensures { IfOk result (λ _. (m : Made) → Shows self.old m →
            Shows self.new (with_constraint m (Constraint.Reified (Item.Var truth) (rel_of how) sum.now.terms
            (constant_for how sum.now.constant)))) }
    {
        match within(sum, how.constant(sum.constant())) {
            Ok(constant) => {
                let terms = sum.terms(alloc)?;
                self.keep(Constraint::Reified {
                    truth: Item::Var(truth),
                    rel: how.rel(),
                    terms,
                    constant,
                })?;
                Ok(())
            }
            Err(limit) => {
                self.refuse(limit);
                Ok(())
            }
        }
    }
}

/// 1 where something is so, and else 0.
fn truth_item(is_so: bool) -> Item
    ensures { result ≡ Item.Int (bit is_so) }
{
    if is_so { Item::Int(1) } else { Item::Int(0) }
}
