//! What an entry of the trail says.
ghost use Rattle.std.specs.Prelude.{◌≡◌, ◌<◌, ◌^◌};
ghost use Rattle.pi_region.specs.Entry.{data_of, value_of, word_of, entry_of, table_of, change_of, table_number, change_number};

/// A table beside the region.
#[derive(Clone, Copy)]
pub enum Table {
    Variables,
    Constraints,
    Agents,
    Waiting,
    Heads,
}

/// What happened to a table: it got one more word, another word in place of a zero, or another word in place of one
/// that isn't zero.
#[derive(Clone, Copy)]
pub enum Change {
    Pushed,
    Filled,
    Replaced,
}

/// The last word of an entry: the place behind the entry before it, the table, and what happened to it.
#[derive(Clone, Copy)]
pub struct Entry {
    pub link: u64,
    pub table: Table,
    pub change: Change,
}

impl Table {
    fn number(self) -> u64
        ensures { result ≡ table_number self }
    {
        match self {
            Table::Variables => 0,
            Table::Constraints => 1,
            Table::Agents => 2,
            Table::Waiting => 3,
            Table::Heads => 4,
        }
    }

    fn of(number: u64) -> Table
        ensures { result ≡ table_of number }
    {
        match number {
            0 => Table::Variables,
            1 => Table::Constraints,
            2 => Table::Agents,
            3 => Table::Waiting,
            _ => Table::Heads,
        }
    }
}

impl Change {
    fn number(self) -> u64
        ensures { result ≡ change_number self }
    {
        match self {
            Change::Pushed => 0,
            Change::Filled => 1,
            Change::Replaced => 2,
        }
    }

    fn of(number: u64) -> Change
        ensures { result ≡ change_of number }
    {
        match number {
            0 => Change::Pushed,
            1 => Change::Filled,
            _ => Change::Replaced,
        }
    }
}

impl Entry {
    /// The entry as a word.
    pub fn word(self) -> u64
        requires { self.link < 2 ^ 55 }
        ensures { result ≡ word_of self }
    {
        data(self.link * 16 + self.table.number() * 3 + self.change.number())
    }

    /// The entry that a word says.
    pub fn of(word: u64) -> Entry
        ensures { result ≡ entry_of word }
    {
        let number = value(word);
        Entry {
            link: number / 16,
            table: Table::of(number % 16 / 3),
            change: Change::of(number % 16 % 3),
        }
    }
}

/// A number as a word of the region that is no Ref.
pub fn data(number: u64) -> u64
    requires { number < 2 ^ 59 }
    ensures { result ≡ data_of number }
{
    number * 32 + 7
}

/// The number in such a word.
pub fn value(word: u64) -> u64
    ensures { result ≡ value_of word }
{
    word / 32
}
