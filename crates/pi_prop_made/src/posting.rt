//! Constraints over items, and what a reading posts in the end.
ghost use Rattle.std.specs.Prelude.{◌≡◌, List, IfOk};
ghost use Rattle.pi_constraints.specs.declared.constraint.Item.{Item};
ghost use Rattle.pi_constraints.specs.declared.constraint.Constraint.{Constraint};
ghost use Rattle.pi_prop_spec.specs.Steps.{Made};
ghost use Rattle.pi_prop_made.specs.Making.{Shows, with_constraint};
ghost use Rattle.pi_prop_made.specs.Items.{IsJudged, AreJudged};

use crate::items::JudgedItems;
use crate::limits::Limit;
use crate::making::Making;
use pi_constraints::{Constraint, Constraints, Item};
use std::alloc::AllocError;

/// What a goal posts: so many new variables, numbered behind those that were made, and the constraints in the order of their
/// making.
#[derive(Drop)]
pub struct Posting {
    pub fresh: u64,
    pub list: Constraints,
}

impl Making {
    /// No two items are the same integer: `all_different`.
    pub fn post_different(&mut self, items: JudgedItems) -> Result<(), AllocError>
        ensures { IfOk result (λ _. (m : Made) (xs : List Item) → AreJudged items xs → Shows self.old m →
            Shows self.new (with_constraint m (Constraint.Different xs))) }
    {
        match items.limit() {
            Some(limit) => {
                self.refuse(limit);
                Ok(())
            }
            None => {
                self.keep(Constraint::Different(items.items))?;
                Ok(())
            }
        }
    }

    /// The same of `all_distinct`.
    pub fn post_distinct(&mut self, items: JudgedItems) -> Result<(), AllocError>
        ensures { IfOk result (λ _. (m : Made) (xs : List Item) → AreJudged items xs → Shows self.old m →
            Shows self.new (with_constraint m (Constraint.Distinct xs))) }
    {
        match items.limit() {
            Some(limit) => {
                self.refuse(limit);
                Ok(())
            }
            None => {
                self.keep(Constraint::Distinct(items.items))?;
                Ok(())
            }
        }
    }

    /// The item with the number `index` is `value`: `element`. An index or a value that no domain can have is None.
    pub fn post_element(
        &mut self,
        index: Option<Item>,
        items: JudgedItems,
        value: Option<Item>,
    ) -> Result<(), AllocError>
        ensures { IfOk result (λ _. (m : Made) (i v : Item) (xs : List Item) → IsJudged index i → IsJudged value v →
            AreJudged items xs → Shows self.old m → Shows self.new (with_constraint m (Constraint.Element i xs v))) }
    {
        if let Some(limit) = items.limit() {
            self.refuse(limit);
            return Ok(());
        }
        let Some(index) = index else {
            self.refuse(Limit::Width);
            return Ok(());
        };
        let Some(value) = value else {
            self.refuse(Limit::Width);
            return Ok(());
        };
        self.keep(Constraint::Element {
            index,
            items: items.items,
            value,
        })?;
        Ok(())
    }
}
