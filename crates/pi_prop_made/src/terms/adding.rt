//! Terms joined to others, and terms times a number.
ghost use Rattle.std.specs.Prelude.{◌≡◌, pos, negsuc, true};
ghost use Rattle.pi_prop_spec.specs.Steps.{have_128_bits};
ghost use Rattle.pi_prop_made.specs.Changes.{factor_of, AddsTimes, IsTimes, ShowsAdded};

use super::Terms;
use crate::coefficient::Coefficient;
use crate::stop::SumStop;
use std::alloc::Global;

impl Terms {
    /// The terms of another sum are joined to these, with their signs or with the others.
    pub(crate) fn add_all(&mut self, other: &Terms, negated: bool) -> Result<(), SumStop>
        ensures { AddsTimes (factor_of negated) self.old self.new other.now result }
    {
        for (variable, coefficient) in &other.entries {
            let more = coefficient.turned(other.negated).turned(negated);
            self.join(*variable, more)?;
        }
        Ok(())
    }

    /// Each term times a number, of terms that have 128 bits.
    pub(crate) fn times(&self, alloc: Global, factor: i128) -> Result<Terms, SumStop>
        requires { have_128_bits self.now ≡ true }
        ensures { IsTimes factor self.now result }
    {
        let mut product = Terms::new(alloc);
        for (variable, coefficient) in &self.entries {
            let Some(number) = coefficient.turned(self.negated).times(factor) else {
                return Err(SumStop::Wide);
            };
            product.join(*variable, Coefficient::new(number, false))?;
        }
        Ok(product)
    }

    /// With the terms of another sum, with their signs or with the others.
    fn with_all(mut self, other: &Terms, negated: bool) -> Result<Terms, SumStop>
        ensures { ShowsAdded (factor_of negated) self other.now result }
    {
        self.add_all(other, negated)?;
        Ok(self)
    }

    /// The terms of both, whether or not all have 128 bits. The shorter terms go into the longer ones.
    pub(crate) fn add(self, other: Terms) -> Result<Terms, SumStop>
        ensures { ShowsAdded (pos 1) self other result }
    {
        if self.len() < other.len() {
            other.with_all(&self, false)
        } else {
            self.with_all(&other, false)
        }
    }

    /// The terms of the difference, whether or not all have 128 bits. The shorter terms go into the longer ones.
    pub(crate) fn subtract(self, other: Terms) -> Result<Terms, SumStop>
        ensures { ShowsAdded (negsuc 0) self other result }
    {
        if self.len() < other.len() {
            let mut opposite = other;
            opposite.negate();
            opposite.with_all(&self, false)
        } else {
            self.with_all(&other, true)
        }
    }

    /// Each term times a number, of terms that have 128 bits; by 1 and -1 without a look at them.
    pub(crate) fn scale(mut self, alloc: Global, factor: i128) -> Result<Terms, SumStop>
        requires { have_128_bits self ≡ true }
        ensures { IsTimes factor self result }
    {
        if factor == 1 {
            return Ok(self);
        }
        if factor == -1 {
            self.negate();
            return Ok(self);
        }
        self.times(alloc, factor)
    }
}
