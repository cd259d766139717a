//! What variables' words were when the region had a length, of those that entries since are about.
ghost use Rattle.std.specs.Prelude.{◌≡◌, List, ℕ, IfOk};
ghost use Rattle.pi_region.specs.Image.{Image};
ghost use Rattle.pi_region.specs.Back.{at_length, back_once, newest};
ghost use Rattle.pi_region.specs.Changes.{LeadsBack};
ghost use Rattle.pi_region.specs.declared.entry.Table.{Table};

use crate::entry::{Change, Entry, Table};
use crate::trailed::{Trailed, lesser};
use std::alloc::{AllocError, Global};
use std::collections::BTreeMap;

/// How many variables there were, and the words that they had, of those about which there is an entry since.
#[derive(Drop)]
pub struct Changes {
    pub count: usize,
    pub words: BTreeMap<u64, u64>,
}

impl Trailed {
    /// How many variables there were when the region had this length, and by their numbers the words that they had, of those
    /// about which there is an entry since. It costs the entries since.
    pub fn changes_since(&self, alloc: Global, len: usize) -> Result<Changes, AllocError>
        ensures { IfOk result (λ found. LeadsBack (at_length len self.now).variables self.now.variables found.count found.words.entries) }
    {
        let mut found = Changes {
            count: self.count(Table::Variables),
            words: BTreeMap::new(alloc),
        };
        let mut end = self.end();
        while end > len {
            self.note(end, &mut found)?;
            end = self.end_before(end);
        }
        Ok(found)
    }

    /// Where the entry ends that is before the one that ends at a place.
    fn end_before(&self, end: usize) -> usize
        ensures { (j : Image) → j.region ≡ self.now.region → end ≡ j.trail → result ≡ (back_once j).trail }
    {
        let entry = self.entry_at(end);
        lesser(entry.link as usize, end.saturating_sub(1))
    }

    /// Notes what the entry that ends at a place brings back.
    fn note(&self, end: usize, found: &mut Changes) -> Result<(), AllocError>
        ensures { IfOk result (λ _. (j : Image) (now : List ℕ) → j.region ≡ self.now.region → end ≡ j.trail →
            LeadsBack j.variables now found.old.count found.old.words.entries →
            LeadsBack (back_once j).variables now found.new.count found.new.words.entries) }
    {
        let entry = self.entry_at(end);
        match entry.table {
            Table::Variables => Ok(self.note_change(end, entry, found)?),
            Table::Constraints => Ok(()),
            Table::Agents => Ok(()),
            Table::Waiting => Ok(()),
            Table::Heads => Ok(()),
        }
    }

    /// Notes what an entry about a variable brings back.
    fn note_change(&self, end: usize, entry: Entry, found: &mut Changes) -> Result<(), AllocError>
        ensures { IfOk result (λ _. (j : Image) (now : List ℕ) → j.region ≡ self.now.region → end ≡ j.trail → entry ≡ newest j →
            entry.table ≡ Table.Variables → LeadsBack j.variables now found.old.count found.old.words.entries →
            LeadsBack (back_once j).variables now found.new.count found.new.words.entries) }
    {
        let place = self.place_at(end) as u64;
        match entry.change {
            Change::Pushed => found.count = found.count.saturating_sub(1),
            Change::Filled => {
                found.words.insert(place, 0)?;
            }
            Change::Replaced => {
                found.words.insert(place, self.old(end))?;
            }
        }
        Ok(())
    }
}
