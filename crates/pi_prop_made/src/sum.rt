//! Sums of variables and a constant.
ghost use Rattle.std.specs.Prelude.{◌≡◌, length, true, IfOk};
ghost use Rattle.pi_prop_spec.specs.PostingSums.{Sum, of_number, of_variable, added, difference, opposite, scaled, Ascend};
ghost use Rattle.pi_prop_spec.specs.Steps.{constant_of, variable_of};
ghost use Rattle.pi_prop_spec.specs.Limits.{are_narrow};
ghost use Rattle.pi_prop_made.specs.Steps.{fits, ShowsStep, IsStepTo};

use crate::coefficient::Coefficient;
use crate::stop::SumStop;
use crate::terms::Terms;
use pi_constraints::LinTerms;
use std::alloc::{AllocError, Global};
use std::marker::Model;

/// A joined sum of terms and a constant, each of 128 bits. A contract sees its terms, by ascending variables and without
/// zeros, and the constant. The sums that constraints are brought into are own.
#[derive(Drop)]
pub struct JoinedSum {
    terms: Terms,
    constant: i128,
}

impl Model for JoinedSum {
    ghost use Rattle.std.specs.Prelude.{◌≡◌, true};
    ghost use Rattle.pi_prop_spec.specs.PostingSums.{Sum, Ascend};
    ghost use Rattle.pi_prop_spec.specs.Steps.{have_128_bits};

    ghost Value = { Sum };

    ghost view = { λ a. record { terms = a.terms; constant = a.constant } };

    ghost invariant = { λ a. Ascend 0 a.terms × (have_128_bits a.terms ≡ true) };
}

impl JoinedSum {
    /// A number.
    pub fn number(alloc: Global, number: i128) -> JoinedSum
        ensures { result ≡ of_number number }
    {
        JoinedSum {
            terms: Terms::new(alloc),
            constant: number,
        }
    }

    /// A variable. It is never `Wide`.
    pub fn variable(alloc: Global, variable: u64) -> Result<JoinedSum, SumStop>
        ensures { ShowsStep result (of_variable variable) }
    {
        let mut terms = Terms::new(alloc);
        match terms.join(variable, Coefficient::new(1, false)) {
            Ok(()) => step(Ok(terms), Some(0)),
            Err(stop) => Err(stop),
        }
    }

    /// The sum of two; `Wide` exactly where a coefficient or the constant needs more than 128 bits.
    pub fn add(self, other: JoinedSum) -> Result<JoinedSum, SumStop>
        ensures { ShowsStep result (added self other) }
    {
        let constant = self.constant.checked_add(other.constant);
        step(self.terms.add(other.terms), constant)
    }

    /// The difference of two; `Wide` exactly where a coefficient or the constant needs more than 128 bits.
    pub fn subtract(self, other: JoinedSum) -> Result<JoinedSum, SumStop>
        ensures { ShowsStep result (difference self other) }
    {
        let constant = self.constant.checked_sub(other.constant);
        step(self.terms.subtract(other.terms), constant)
    }

    /// The opposite; `Wide` exactly where a coefficient or the constant needs more than 128 bits.
    pub fn negate(self) -> Result<JoinedSum, SumStop>
        ensures { ShowsStep result (opposite self) }
    {
        let constant = self.constant.checked_neg();
        let mut terms = self.terms;
        terms.negate();
        step(Ok(terms), constant)
    }

    /// The sum again, as a step of its own. It is never too wide, since a sum that was made fits.
    pub fn positive(self) -> JoinedSum
        ensures sum { result ≡ self }
        ensures fits { fits self ≡ true }
    {
        self
    }

    /// A number times the sum; `Wide` exactly where a coefficient or the constant needs more than 128 bits. Factors of 1 and -1
    /// cost no look at the terms.
    pub fn scale(self, alloc: Global, factor: i128) -> Result<JoinedSum, SumStop>
        ensures { ShowsStep result (scaled factor self) }
    {
        let constant = factor.checked_mul(self.constant);
        step(self.terms.scale(alloc, factor), constant)
    }

    /// How many terms there are. They ascend by variable.
    pub fn len(&self) -> usize
        ensures count { result ≡ length self.now.terms }
        ensures ascend { Ascend 0 self.now.terms }
    {
        self.terms.len()
    }

    /// The constant.
    pub fn constant(&self) -> i128
        ensures { result ≡ self.now.constant }
    {
        self.constant
    }

    /// Whether no coefficient is wider than a finished constraint has it.
    pub fn has_narrow_terms(&self) -> bool
        ensures { result ≡ are_narrow self.now.terms }
    {
        self.terms.are_narrow()
    }

    /// The number that the sum is, where it has no terms.
    pub fn as_number(&self) -> Option<i128>
        ensures { result ≡ constant_of self.now }
    {
        if self.terms.len() == 0 {
            Some(self.constant)
        } else {
            None
        }
    }

    /// The variable that the sum is, where it is just one.
    pub fn as_variable(&self) -> Option<u64>
        ensures { result ≡ variable_of self.now }
    {
        if self.constant == 0 {
            self.terms.single()
        } else {
            None
        }
    }

    /// The terms, by ascending variables and without zeros.
    pub fn terms(&self, alloc: Global) -> Result<LinTerms, AllocError>
        ensures { IfOk result (λ made. made ≡ self.now.terms) }
    {
        self.terms.written(alloc)
    }
}

/// The sum of terms and a constant, where both have 128 bits.
fn step(terms: Result<Terms, SumStop>, constant: Option<i128>) -> Result<JoinedSum, SumStop>
    ensures { (w : Sum) → IsStepTo w terms constant → ShowsStep result w }
{
    let Some(constant) = constant else {
        return Err(SumStop::Wide);
    };
    let terms = terms?;
    if terms.fit() {
        Ok(JoinedSum { terms, constant })
    } else {
        Err(SumStop::Wide)
    }
}
