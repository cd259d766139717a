//! Items of constraints, judged as they come.
ghost use Rattle.std.specs.Prelude.{◌++◌, ◌∷◌, [], List, IfOk};
ghost use Rattle.pi_constraints.specs.declared.constraint.Item.{Item};
ghost use Rattle.pi_prop_made.specs.Items.{IsJudged, AreJudged, LimitIs};

use crate::limits::{Limit, MAX_TERMS};
use pi_constraints::{Item, Items, MAX_VALUE};
use std::alloc::{AllocError, Global};

/// An integer as an item; None where no domain can have it.
pub fn integer_item(number: i128) -> Option<Item>
    ensures { IsJudged result (Item.Int number) }
{
    if number < -(MAX_VALUE as i128) {
        return None;
    }
    if (MAX_VALUE as i128) < number {
        return None;
    }
    Some(Item::Int(number as i64))
}

/// Items that were read, kept as long as each integer among them is a value that a domain can have.
#[derive(Drop)]
pub struct JudgedItems {
    pub(crate) items: Items,
    pub(crate) count: u64,
    pub(crate) narrow: bool,
}

impl JudgedItems {
    /// No items.
    pub fn new(alloc: Global) -> JudgedItems
        ensures { AreJudged result [] }
    {
        JudgedItems {
            items: Items::new(alloc),
            count: 0,
            narrow: true,
        }
    }

    /// One more item, None for an integer that no domain can have.
    pub fn push(&mut self, item: Option<Item>) -> Result<(), AllocError>
        ensures { IfOk result (λ _. (x : Item) (xs : List Item) → IsJudged item x → AreJudged self.old xs →
            AreJudged self.new (xs ++ x ∷ [])) }
    {
        let Some(count) = self.count.checked_add(1) else {
            return Err(AllocError);
        };
        match item {
            Some(item) => {
                self.items.push(item)?;
                self.count = count;
                Ok(())
            }
            None => {
                self.narrow = false;
                self.count = count;
                Ok(())
            }
        }
    }

    /// The limit that a constraint over these items doesn't keep.
    pub(crate) fn limit(&self) -> Option<Limit>
        ensures { (xs : List Item) → AreJudged self.now xs → LimitIs result xs }
    {
        if (MAX_TERMS as u64) < self.count {
            return Some(Limit::Terms);
        }
        if self.narrow {
            None
        } else {
            Some(Limit::Width)
        }
    }
}
