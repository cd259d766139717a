//! Products and absolute values.
ghost use Rattle.std.specs.Prelude.{◌≡◌};
ghost use Rattle.pi_prop_spec.specs.Steps.{Made, then, step, product, product_variable, absolute_sum, absolute_variable};
ghost use Rattle.pi_prop_made.specs.Making.{Shows, ShowsReading, AllBelow, side_product, side_absolute};

use crate::making::Making;
use crate::stop::SumStop;
use crate::sum::JoinedSum;
use pi_constraints::{Constraint, Item};
use std::alloc::Global;

impl Making {
    /// The product of two sums, with its step: a constant side scales the other one, and else it is a new variable.
    pub fn product(
        &mut self,
        alloc: Global,
        left: JoinedSum,
        right: JoinedSum,
    ) -> Result<JoinedSum, SumStop>
        ensures { (m : Made) → Shows self.old m → AllBelow m.unused left.terms → AllBelow m.unused right.terms →
            ShowsReading (then (product left right) step) m self.new result }
    {
        match left.as_number() {
            Some(factor) => right.scale(alloc, factor),
            None => match right.as_number() {
                Some(factor) => left.scale(alloc, factor),
                None => self.side_product(alloc, left, right),
            },
        }
    }

    /// The absolute value of a sum, with its step: of a constant it is one, and else it is a new variable.
    pub fn absolute(&mut self, alloc: Global, sum: JoinedSum) -> Result<JoinedSum, SumStop>
        ensures { (m : Made) → Shows self.old m → AllBelow m.unused sum.terms →
            ShowsReading (then (absolute_sum sum) step) m self.new result }
    {
        match sum.as_number() {
            Some(number) => match number.checked_abs() {
                Some(size) => Ok(JoinedSum::number(alloc, size)),
                None => Err(SumStop::Wide),
            },
            None => self.side_absolute(alloc, sum),
        }
    }

    fn side_product(
        &mut self,
        alloc: Global,
        left: JoinedSum,
        right: JoinedSum,
    ) -> Result<JoinedSum, SumStop>
        ensures { (m : Made) → Shows self.old m → AllBelow m.unused left.terms → AllBelow m.unused right.terms →
            ShowsReading (then (side_product left right) step) m self.new result }
    {
        let Ok(x) = self.side(alloc, left) else {
            return Err(SumStop::Memory);
        };
        let Ok(y) = self.side(alloc, right) else {
            return Err(SumStop::Memory);
        };
        self.product_variable(alloc, x, y)
    }

    fn side_absolute(&mut self, alloc: Global, sum: JoinedSum) -> Result<JoinedSum, SumStop>
        ensures { (m : Made) → Shows self.old m → AllBelow m.unused sum.terms →
            ShowsReading (then (side_absolute sum) step) m self.new result }
    {
        let Ok(x) = self.side(alloc, sum) else {
            return Err(SumStop::Memory);
        };
        self.absolute_variable(alloc, x)
    }

    fn product_variable(&mut self, alloc: Global, x: u64, y: u64) -> Result<JoinedSum, SumStop>
        ensures { (m : Made) → Shows self.old m → ShowsReading (then (product_variable x y) step) m self.new result }
    {
        let Ok(z) = self.new_variable() else {
            return Err(SumStop::Memory);
        };
        let product = Constraint::Product {
            z: Item::Var(z),
            x: Item::Var(x),
            y: Item::Var(y),
        };
        match self.keep(product) {
            Ok(()) => JoinedSum::variable(alloc, z),
            Err(_) => Err(SumStop::Memory),
        }
    }

    fn absolute_variable(&mut self, alloc: Global, x: u64) -> Result<JoinedSum, SumStop>
        ensures { (m : Made) → Shows self.old m → ShowsReading (then (absolute_variable x) step) m self.new result }
    {
        let Ok(z) = self.new_variable() else {
            return Err(SumStop::Memory);
        };
        let absolute = Constraint::Absolute {
            z: Item::Var(z),
            x: Item::Var(x),
        };
        match self.keep(absolute) {
            Ok(()) => JoinedSum::variable(alloc, z),
            Err(_) => Err(SumStop::Memory),
        }
    }
}
