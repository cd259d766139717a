//! The names of a store over raw words.
ghost use Rattle.std.specs.Prelude.{◌≡◌, ◌≢◌, ℕ, suc, ◌<◌, ◌≤◌, ◌^◌, List, [], ◌∷◌, ◌++◌, length, Option, Some, true, slice_get, slice_index, slice_index_or, IfOk, IsTrue};
ghost use Rattle.pi_terms.specs.ListNames.{cell_name};
ghost use Rattle.pi_atoms.specs.Names.{HasDistinct, Gains};
ghost use Rattle.pi_store_blocks.specs.NameTable.{is_given, is_from, names_of};

use pi_atoms::Atoms;
use pi_region::WordList;
use std::alloc::{AllocError, Global};
use std::marker::Model;

/// The name of list cells, which has the number 0.
const CELL_NAME: &str = "[|]";

/// How many names there are at most. More is want of memory.
const MOST_NAMES: u64 = 67_108_864;

/// Names with their numbers, and for each the length of the region from which on terms may have it. The first is the
/// name of list cells, which each term may have.
#[derive(Drop)]
pub struct RawNames {
    atoms: Atoms,
    from: WordList,
}

impl Model for RawNames {
    ghost use Rattle.pi_store_blocks.specs.NameTable.{NameTable, table_of, IsTable};

    ghost Value = { NameTable };

    ghost view = { λ n. table_of n.atoms n.from };

    ghost invariant = { λ n. IsTable n.atoms n.from };
}

impl RawNames {
    /// The name of list cells alone. It takes no memory.
    pub fn new(alloc: Global) -> RawNames
        ensures { result ≡ record { texts = cell_name ∷ []; from = 0 ∷ [] } }
    {
        RawNames {
            atoms: Atoms::new(alloc),
            from: WordList::new(alloc),
        }
    }

    /// The same names with the same numbers, which terms may have from the same lengths on, apart.
    pub fn copied(&self, alloc: Global) -> Result<RawNames, AllocError>
        ensures { IfOk result (λ made. made ≡ self.now) }
    {
        let atoms = self.atoms.copied()?;
        let mut from = WordList::new(alloc);
        from.append_from(&self.from, 0)?;
        Ok(RawNames { atoms, from })
    }

    /// Whether each number of the other ones has the same name here, and terms may have here what they may have there.
    /// It takes no memory.
    pub fn has_all(&self, other: &RawNames) -> bool
        ensures texts { IsTrue result → (k : ℕ) (name : List ℕ) → slice_get other.now.texts k ≡ Some name → slice_get self.now.texts k ≡ Some name }
        ensures given { IsTrue result → (n k : ℕ) (name : List ℕ) → names_of other.now n k ≡ Some name → names_of self.now n k ≡ Some name }
        ensures distinct { HasDistinct self.now.texts }
    {
        self.atoms.has_all(&other.atoms) && are_sooner(&self.from, &other.from)
    }

    /// The number of a name, which is a new one at its first use and in no term yet.
    pub fn number(&mut self, alloc: Global, name: &str) -> Result<u32, AllocError>
        ensures ok { IfOk result (λ k. slice_get self.new.texts k ≡ Some name.now) }
        ensures small { IfOk result (λ k. k < 2 ^ 26) }
        ensures grows { Gains self.old.texts self.new.texts name.now }
        ensures same { (len k : ℕ) → names_of self.new len k ≡ names_of self.old len k }
        ensures distinct { HasDistinct self.new.texts }
    {
        let count = self.atoms.len();
        if name == CELL_NAME {
            return Ok(0);
        }
        make_room(&mut self.from, count)?;
        let place = self.atoms.number(alloc, name)?;
        number_behind(place)
    }

    /// Whether terms of a region of this length may have the name with this number. It takes no memory.
    pub fn is_given(&self, number: u64, len: usize) -> bool
        ensures is { result ≡ is_given self.now len number }
        ensures known { IsTrue result → number < length self.now.texts }
    {
        let from = &self.from;
        if number == 0 {
            return true;
        }
        is_from(from.get((number - 1) as usize), len)
    }

    /// From this length on terms may have the name with this number. It takes no memory, and changes nothing for a
    /// number without a name.
    pub fn give(&mut self, number: u64, len: usize)
        requires { len < 2 ^ 60 }
        ensures texts { self.new.texts ≡ self.old.texts }
        ensures given { number < length self.old.texts → is_given self.new len number ≡ true }
        ensures others { (n k : ℕ) → k ≢ number → names_of self.new n k ≡ names_of self.old n k }
        ensures earlier { (n k : ℕ) → n < len → names_of self.new n k ≡ names_of self.old n k }
        ensures stays { (n k : ℕ) (name : List ℕ) → names_of self.old n k ≡ Some name → names_of self.new n k ≡ Some name }
    {
        if self.is_given(number, len) {
            return;
        }
        let place = number - 1;
        if place < self.atoms.len() as u64 {
            self.from.set(place as usize, len as u64 + 1);
        }
    }

    /// The name with this number; empty where there is none. It takes no memory.
    pub fn name(&self, number: u64) -> &str
        ensures is { (name : List ℕ) → slice_get self.now.texts number ≡ Some name → result.now ≡ name }
        ensures else_empty { result.now ≡ slice_index_or self.now.texts number [] }
    {
        let atoms = &self.atoms;
        if number == 0 {
            return CELL_NAME;
        }
        atoms.name(number - 1)
    }
}

/// A word more than there are names, where the list has no more yet.
fn make_room(from: &mut WordList, count: usize) -> Result<(), AllocError>
    requires { count ≤ length from.old }
    ensures same { (k : ℕ) → slice_index from.new k ≡ slice_index from.old k }
    ensures longer { length from.old ≤ length from.new }
    ensures room { IfOk result (λ _. count < length from.new) }
{
    if from.len() == count {
        from.push(0)?;
    }
    Ok(())
}

/// Whether a word says that terms of a region of this length may have a name.
fn is_from(word: u64, len: usize) -> bool
    ensures { result ≡ is_from word len }
{
    0 < word && word - 1 <= len as u64
}

/// Whether a word says that terms may have a name where the other one says so.
fn is_sooner(word: u64, other: u64) -> bool
    ensures { IsTrue result → (len : ℕ) → is_from other len ≡ true → is_from word len ≡ true }
{
    other == 0 || 0 < word && word <= other
}

/// Whether each word says that terms may have a name where the other list's does. It takes no memory.
fn are_sooner(words: &WordList, others: &WordList) -> bool
    ensures { IsTrue result → (len k : ℕ) → is_from (slice_index others.now k) len ≡ true → is_from (slice_index words.now k) len ≡ true }
{
    for k in 0..others.len() {
        if !is_sooner(words.get(k), others.get(k)) {
            return false;
        }
    }
    true
}

/// The number of the name behind the first one that stands at this place.
fn number_behind(place: u64) -> Result<u32, AllocError>
    ensures { IfOk result (λ k. (k ≡ suc place) × (k < 2 ^ 26)) }
{
    if place >= MOST_NAMES - 1 {
        return Err(AllocError);
    }
    Ok(place as u32 + 1)
}
