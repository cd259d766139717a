//! What a variable's word was, by the entries since.
ghost use Rattle.std.specs.Prelude.{◌≡◌, ◌-◌, ◌==◌, cond, min, nat_lt, slice_index};
ghost use Rattle.pi_region.specs.Image.{Image};
ghost use Rattle.pi_region.specs.Back.{at_length, back_once, newest};
ghost use Rattle.pi_region.specs.History.{Stands};

use crate::entry::{Change, Entry, Table};
use crate::trailed::{Trailed, lesser};

impl Trailed {
    /// The word that a variable had when the region had this length; 0 for a variable that wasn't made then. It takes no
    /// memory, and time for the entries since.
    pub fn word_at(&self, len: usize, n: usize) -> u64
        ensures { result ≡ slice_index (at_length len self.now).variables n }
    {
        let mut past = Past {
            end: self.end(),
            word: self.get(Table::Variables, n),
            count: self.count(Table::Variables),
        };
        while past.end > len {
            past = past.before(self, n);
        }
        past.word
    }
}

/// What was there behind an entry: where the entry ends, the word of one variable, and how many variables there were.
#[derive(Clone, Copy)]
struct Past {
    end: usize,
    word: u64,
    count: usize,
}

impl Past {
    /// What was there before that entry.
    fn before(self, words: &Trailed, n: usize) -> Past
        ensures { (j : Image) → Stands words.now j n self → Stands words.now (back_once j) n result }
    {
        let entry = words.entry_at(self.end);
        let end = lesser(entry.link as usize, self.end.saturating_sub(1));
        match entry.table {
            Table::Variables => self.before_change(words, n, entry, end),
            Table::Constraints => self.ending_at(end),
            Table::Agents => self.ending_at(end),
            Table::Waiting => self.ending_at(end),
            Table::Heads => self.ending_at(end),
        }
    }

    /// The same, but for where the entry ends.
    fn ending_at(self, end: usize) -> Past
        ensures { result ≡ record { end = end; word = self.word; count = self.count } }
    {
        Past {
            end,
            word: self.word,
            count: self.count,
        }
    }

    /// What was there before an entry about a variable.
    fn before_change(self, words: &Trailed, n: usize, entry: Entry, end: usize) -> Past
        ensures { (j : Image) → Stands words.now j n self → entry ≡ newest j → entry.table ≡ Table.Variables →
            end ≡ min entry.link (self.end - 1) → Stands words.now (back_once j) n result }
    {
        let place = words.place_at(self.end);
        match entry.change {
            Change::Pushed => self.before_push(n, end),
            Change::Filled => self.before_word(n, end, place, 0),
            Change::Replaced => self.before_word(n, end, place, words.old(self.end)),
        }
    }

    /// What was there before a variable was made.
    fn before_push(self, n: usize, end: usize) -> Past
        ensures { result ≡ record { end = end; word = cond (nat_lt n (self.count - 1)) self.word 0; count = self.count - 1 } }
    {
        let count = self.count.saturating_sub(1);
        if n < count {
            Past {
                end,
                word: self.word,
                count,
            }
        } else {
            Past {
                end,
                word: 0,
                count,
            }
        }
    }

    /// What was there before another word was put at a place.
    fn before_word(self, n: usize, end: usize, place: usize, old: u64) -> Past
        ensures { result ≡ record {
          end = end;
          word = cond (n == place) (cond (nat_lt n self.count) old self.word) self.word;
          count = self.count;
        } }
    {
        if n != place {
            return self.ending_at(end);
        }
        if n >= self.count {
            return self.ending_at(end);
        }
        Past {
            end,
            word: old,
            count: self.count,
        }
    }
}
