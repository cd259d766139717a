//! A region with tables beside it, and a trail of what changed.
ghost use Rattle.std.specs.Prelude.{◌≡◌, ℕ, ◌<◌, ◌≤◌, ◌^◌, [], ◌∷◌, ◌++◌, length, min, slice_index, slice_set, take, ◌-◌, IfOk, OnErr, IsFalse};
ghost use Rattle.pi_region.specs.Entry.{word_of};
ghost use Rattle.pi_region.specs.Image.{Image, table_in, with_table, numbers_of, appended, logged, pushed, replacing, replaced};
ghost use Rattle.pi_region.specs.Back.{Advances, newest, newest_place, newest_old, at_length, back_once};

use crate::entry::{Change, Entry, Table, data, value};
use crate::word_list::WordList;
use crate::words::Words;
use pi_constraints::Ref;
use std::alloc::{AllocError, Global};
use std::cmp::min;
use std::marker::Model;

/// How many words of a region the entries of a trail tell apart. More is want of memory.
const MOST_WORDS: usize = 36_028_797_018_963_968;

/// A region, five tables and a trail. Each change of a table writes an entry at the end of the region: how to take the
/// change back, and behind it where the entry before it ends. So the length of the region alone says what the words
/// were, and `undo` needs no more than that length.
#[derive(Drop)]
pub struct Trailed {
    region: WordList,
    trail: usize,
    variables: WordList,
    constraints: WordList,
    agents: WordList,
    waiting: WordList,
    heads: WordList,
}

impl Model for Trailed {
    ghost use Rattle.std.specs.Prelude.{◌≤◌, length};
    ghost use Rattle.pi_region.specs.Image.{Image};

    ghost Value = { Image };

    ghost view = { λ s. record {
      region = s.region;
      trail = s.trail;
      variables = s.variables;
      constraints = s.constraints;
      agents = s.agents;
      waiting = s.waiting;
      heads = s.heads;
    } };

    ghost invariant = { λ s. s.trail ≤ length s.region };
}

impl Trailed {
    /// Nothing, in a region without words. It takes no memory.
    pub fn new(alloc: Global, region: Words) -> Trailed
        requires { region.words ≡ [] }
        ensures { result ≡ record { region = []; trail = 0; variables = []; constraints = []; agents = []; waiting = []; heads = [] } }
    {
        Trailed {
            region: WordList::from_words(region),
            trail: 0,
            variables: WordList::new(alloc),
            constraints: WordList::new(alloc),
            agents: WordList::new(alloc),
            waiting: WordList::new(alloc),
            heads: WordList::new(alloc),
        }
    }

    /// The same words in memory of their own, as much as they take. They can be taken back as these can.
    pub fn copied(&self, alloc: Global) -> Result<Trailed, AllocError>
        ensures { IfOk result (λ made. made ≡ self.now) }
    {
        Ok(Trailed {
            region: self.region.copied(alloc)?,
            trail: self.trail,
            variables: self.variables.copied(alloc)?,
            constraints: self.constraints.copied(alloc)?,
            agents: self.agents.copied(alloc)?,
            waiting: self.waiting.copied(alloc)?,
            heads: self.heads.copied(alloc)?,
        })
    }

    /// The region, emptied, with its block.
    pub fn into_words(self) -> Words
        ensures { result.words ≡ [] }
    {
        let Trailed { mut region, .. } = self;
        region.truncate(0);
        region.into_words()
    }

    /// How many words the region has.
    pub fn len(&self) -> usize
        ensures len { result ≡ length self.now.region }
        ensures small { result < 2 ^ 60 }
        ensures sound { self.now.trail ≤ length self.now.region }
    {
        let _trail = &self.trail;
        self.region.len()
    }

    /// The word at a place of the region; 0 past its end.
    pub fn word(&self, place: usize) -> u64
        ensures { result ≡ slice_index self.now.region place }
    {
        self.region.get(place)
    }

    /// The words of a table.
    fn table(&self, table: Table) -> &WordList
        ensures { result.now ≡ table_in self.now table }
    {
        match table {
            Table::Variables => &self.variables,
            Table::Constraints => &self.constraints,
            Table::Agents => &self.agents,
            Table::Waiting => &self.waiting,
            Table::Heads => &self.heads,
        }
    }

    /// The word at a place of a table; 0 past its end.
    pub fn get(&self, table: Table, place: usize) -> u64
        ensures { result ≡ slice_index (table_in self.now table) place }
    {
        self.table(table).get(place)
    }

    /// How many words a table has.
    pub fn count(&self, table: Table) -> usize
        ensures len { result ≡ length (table_in self.now table) }
        ensures small { result < 2 ^ 60 }
    {
        self.table(table).len()
    }

    /// Whether the region has as many words as the trail can tell apart.
    fn is_full(&self) -> bool
        ensures { IsFalse result → length self.now.region < 2 ^ 55 }
    {
        self.region.len() >= MOST_WORDS
    }

    /// The word of an entry that follows the newest one.
    fn entry(&self, table: Table, change: Change) -> u64
        requires { length self.now.region < 2 ^ 55 }
        ensures { result ≡ word_of (record { link = self.now.trail; table = table; change = change }) }
    {
        let _len = self.region.len();
        Entry {
            link: self.trail as u64,
            table,
            change,
        }
        .word()
    }

    /// One more word in a table, with no entry.
    fn add(&mut self, table: Table, word: u64) -> Result<(), AllocError>
        ensures ok { IfOk result (λ _. self.new ≡ with_table self.old table (table_in self.old table ++ word ∷ [])) }
        ensures err { OnErr result (self.new ≡ self.old) }
    {
        match table {
            Table::Variables => Ok(self.variables.push(word)?),
            Table::Constraints => Ok(self.constraints.push(word)?),
            Table::Agents => Ok(self.agents.push(word)?),
            Table::Waiting => Ok(self.waiting.push(word)?),
            Table::Heads => Ok(self.heads.push(word)?),
        }
    }

    /// Another word at a place of a table, with no entry.
    fn put(&mut self, table: Table, place: usize, word: u64)
        ensures { self.new ≡ with_table self.old table (slice_set (table_in self.old table) place word) }
    {
        match table {
            Table::Variables => self.variables.set(place, word),
            Table::Constraints => self.constraints.set(place, word),
            Table::Agents => self.agents.set(place, word),
            Table::Waiting => self.waiting.set(place, word),
            Table::Heads => self.heads.set(place, word),
        }
    }

    /// One word less in a table, with no entry.
    fn drop_last(&mut self, table: Table)
        ensures { self.new ≡ with_table self.old table (take (length (table_in self.old table) - 1) (table_in self.old table)) }
    {
        match table {
            Table::Variables => self.variables.drop_last(),
            Table::Constraints => self.constraints.drop_last(),
            Table::Agents => self.agents.drop_last(),
            Table::Waiting => self.waiting.drop_last(),
            Table::Heads => self.heads.drop_last(),
        }
    }

    /// Where the newest entry ends.
    pub(crate) fn end(&self) -> usize
        ensures { result ≡ self.now.trail }
    {
        self.trail
    }

    /// The entry that ends at a place.
    pub(crate) fn entry_at(&self, end: usize) -> Entry
        ensures { (j : Image) → j.region ≡ self.now.region → end ≡ j.trail → result ≡ newest j }
    {
        Entry::of(self.region.get(end.saturating_sub(1)))
    }

    /// The place that it names, where it names one.
    pub(crate) fn place_at(&self, end: usize) -> usize
        ensures { (j : Image) → j.region ≡ self.now.region → end ≡ j.trail → result ≡ newest_place j }
    {
        value(self.region.get(end.saturating_sub(2))) as usize
    }

    /// The word that was there before it, where it has that.
    pub(crate) fn old(&self, end: usize) -> u64
        ensures { (j : Image) → j.region ≡ self.now.region → end ≡ j.trail → result ≡ newest_old j }
    {
        let high = value(self.region.get(end.saturating_sub(4)));
        let low = value(self.region.get(end.saturating_sub(3)));
        high * 32 + low % 32
    }

    /// Takes the newest entry's change back, and leaves the one before it the newest.
    fn take_back(&mut self)
        ensures { self.new ≡ back_once self.old }
    {
        let end = self.trail;
        let last = end.saturating_sub(1);
        let entry = Entry::of(self.region.get(last));
        let place = value(self.region.get(end.saturating_sub(2))) as usize;
        let old = self.old(end);
        self.trail = lesser(entry.link as usize, last);
        match entry.change {
            Change::Pushed => self.drop_last(entry.table),
            Change::Filled => self.put(entry.table, place, 0),
            Change::Replaced => self.put(entry.table, place, old),
        }
    }

    /// An entry of one word at the end of the region.
    fn log(&mut self, entry: u64) -> Result<(), AllocError>
        ensures ok { IfOk result (λ _. self.new ≡ logged self.old (entry ∷ [])) }
        ensures err { OnErr result (self.new ≡ self.old) }
    {
        self.region.push(entry)?;
        self.trail = self.region.len();
        Ok(())
    }

    /// An entry at the end of the region for another word in the place of this one.
    fn log_replacing(&mut self, table: Table, place: usize, old: u64) -> Result<(), AllocError>
        requires { place < 2 ^ 59 }
        ensures ok { IfOk result (λ _. self.new ≡ logged self.old (replacing self.old.trail table place old)) }
        ensures err { OnErr result (self.new ≡ self.old) }
    {
        if self.is_full() {
            return Err(AllocError);
        }
        if old == 0 {
            let entry = self.entry(table, Change::Filled);
            self.region.push_two(data(place as u64), entry)?;
        } else {
            let entry = self.entry(table, Change::Replaced);
            self.region
                .push_four(data(old / 32), data(old % 32), data(place as u64), entry)?;
        }
        self.trail = self.region.len();
        Ok(())
    }

    /// A word at the end of the region.
    pub fn append(&mut self, word: u64) -> Result<(), AllocError>
        ensures ok { IfOk result (λ _. self.new ≡ appended self.old (word ∷ [])) }
        ensures advances { IfOk result (λ _. Advances self.old self.new) }
        ensures err { OnErr result (self.new ≡ self.old) }
    {
        self.region.push(word)?;
        Ok(())
    }

    /// Three words at the end of the region.
    pub fn append_three(&mut self, first: u64, second: u64, third: u64) -> Result<(), AllocError>
        ensures ok { IfOk result (λ _. self.new ≡ appended self.old (first ∷ second ∷ third ∷ [])) }
        ensures advances { IfOk result (λ _. Advances self.old self.new) }
        ensures err { OnErr result (self.new ≡ self.old) }
    {
        self.region.push_three(first, second, third)?;
        Ok(())
    }

    /// Two words at the end of the region.
    pub fn append_two(&mut self, first: u64, second: u64) -> Result<(), AllocError>
        ensures ok { IfOk result (λ _. self.new ≡ appended self.old (first ∷ second ∷ [])) }
        ensures advances { IfOk result (λ _. Advances self.old self.new) }
        ensures err { OnErr result (self.new ≡ self.old) }
    {
        self.region.push_two(first, second)?;
        Ok(())
    }

    /// The numbers of Refs and a word at the end of the region.
    pub fn append_refs(&mut self, refs: &[Ref], last: u64) -> Result<(), AllocError>
        ensures ok { IfOk result (λ _. self.new ≡ appended self.old (numbers_of refs.now ++ last ∷ [])) }
        ensures advances { IfOk result (λ _. Advances self.old self.new) }
        ensures err { OnErr result (self.new ≡ self.old) }
    {
        self.region.push_refs(refs, last)?;
        Ok(())
    }

    /// One more word in a table.
    pub fn push(&mut self, table: Table, word: u64) -> Result<(), AllocError>
        ensures ok { IfOk result (λ _. self.new ≡ pushed self.old table word) }
        ensures advances { IfOk result (λ _. Advances self.old self.new) }
        ensures err { OnErr result (self.new ≡ self.old) }
    {
        let _ = &self.region;
        if self.is_full() {
            return Err(AllocError);
        }
        let entry = self.entry(table, Change::Pushed);
        self.add(table, word)?;
        match self.log(entry) {
            Ok(()) => Ok(()),
            Err(refused) => {
                self.drop_last(table);
                Err(refused)
            }
        }
    }

    /// Another word at a place of a table.
    pub fn replace(&mut self, table: Table, place: usize, word: u64) -> Result<(), AllocError>
        requires { place < 2 ^ 59 }
        ensures ok { IfOk result (λ _. self.new ≡ replaced self.old table place word) }
        ensures advances { IfOk result (λ _. Advances self.old self.new) }
        ensures err { OnErr result (self.new ≡ self.old) }
    {
        let _ = &self.region;
        let old = self.get(table, place);
        self.log_replacing(table, place, old)?;
        self.put(table, place, word);
        Ok(())
    }

    /// Brings back what the words were when the region had this length, whatever calls stand between; what was there at
    /// an earlier length can still be brought back. It takes no memory, and time for what changed.
    pub fn undo(&mut self, len: usize)
        ensures back { self.new ≡ at_length len self.old }
        ensures restores { (before : Image) → Advances before self.old → len ≡ length before.region → self.new ≡ before }
        ensures older { (before : Image) → Advances before self.old → length before.region ≤ len → Advances before self.new }
        ensures len { length self.new.region ≡ min len (length self.old.region) }
    {
        while self.end() > len {
            self.take_back();
        }
        self.region.truncate(len);
    }
}

pub(crate) fn lesser(a: usize, b: usize) -> usize
    ensures { result ≡ min a b }
{
    min(a, b)
}
