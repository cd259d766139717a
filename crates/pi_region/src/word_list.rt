//! A list of words that grows at its end.
ghost use Rattle.std.specs.Prelude.{◌≡◌, ◌<◌, ◌^◌, ◌-◌, [], ◌∷◌, ◌++◌, length, drop, take, map, slice_index, slice_set, IfOk, OnErr};
ghost use Rattle.pi_region.specs.Image.{numbers_of};

use crate::words::Words;
use pi_constraints::Ref;
use std::alloc::{AllocError, Global};
use std::marker::Model;

/// A list of words in one region. A contract sees the list. It is safe at any place: past its end it holds zeros that
/// don't change.
#[derive(Drop)]
pub struct WordList {
    words: Words,
}

impl Model for WordList {
    ghost use Rattle.std.specs.Prelude.{ℕ, List};

    ghost Value = { List ℕ };

    ghost view = { λ l. l.words.words };
}

impl WordList {
    /// No words. It takes no memory.
    pub fn new(alloc: Global) -> WordList
        ensures { result ≡ [] }
    {
        WordList {
            words: Words::new(alloc),
        }
    }

    /// The words of a region.
    pub fn from_words(words: Words) -> WordList
        ensures { result ≡ words.words }
    {
        WordList { words }
    }

    /// The region, with its words.
    pub fn into_words(self) -> Words
        ensures { result.words ≡ self }
    {
        self.words
    }

    /// The same words in a region of their own, which has no room for more.
    pub fn copied(&self, alloc: Global) -> Result<WordList, AllocError>
        ensures { IfOk result (λ made. made ≡ self.now) }
    {
        Ok(WordList {
            words: self.words.copied(alloc)?,
        })
    }

    /// How many words there are.
    pub fn len(&self) -> usize
        ensures len { result ≡ length self.now }
        ensures small { result < 2 ^ 60 }
    {
        self.words.len()
    }

    /// The word at a place.
    pub fn get(&self, place: usize) -> u64
        ensures { result ≡ slice_index self.now place }
    {
        if place < self.words.len() {
            self.words.get(place)
        } else {
            0
        }
    }

    /// Another word at a place.
    pub fn set(&mut self, place: usize, word: u64)
        ensures { self.new ≡ slice_set self.old place word }
    {
        if place < self.words.len() {
            self.words.set(place, word);
        }
    }

    /// One more word.
    pub fn push(&mut self, word: u64) -> Result<(), AllocError>
        ensures ok { IfOk result (λ _. self.new ≡ self.old ++ word ∷ []) }
        ensures err { OnErr result (self.new ≡ self.old) }
    {
        self.words.reserve(1)?;
        self.words.push(word);
        Ok(())
    }

    /// Two more words, or none.
    pub fn push_two(&mut self, first: u64, second: u64) -> Result<(), AllocError>
        ensures ok { IfOk result (λ _. self.new ≡ self.old ++ first ∷ second ∷ []) }
        ensures err { OnErr result (self.new ≡ self.old) }
    {
        self.words.reserve(2)?;
        self.words.push(first);
        self.words.push(second);
        Ok(())
    }

    /// Three more words, or none.
    pub fn push_three(&mut self, first: u64, second: u64, third: u64) -> Result<(), AllocError>
        ensures ok { IfOk result (λ _. self.new ≡ self.old ++ first ∷ second ∷ third ∷ []) }
        ensures err { OnErr result (self.new ≡ self.old) }
    {
        self.words.reserve(3)?;
        self.words.push(first);
        self.words.push(second);
        self.words.push(third);
        Ok(())
    }

    /// Four more words, or none.
    pub fn push_four(
        &mut self,
        first: u64,
        second: u64,
        third: u64,
        fourth: u64,
    ) -> Result<(), AllocError>
        ensures ok { IfOk result (λ _. self.new ≡ self.old ++ first ∷ second ∷ third ∷ fourth ∷ []) }
        ensures err { OnErr result (self.new ≡ self.old) }
    {
        self.words.reserve(4)?;
        self.words.push(first);
        self.words.push(second);
        self.words.push(third);
        self.words.push(fourth);
        Ok(())
    }

    /// The numbers of these Refs and then a word, or none.
    pub fn push_refs(&mut self, refs: &[Ref], last: u64) -> Result<(), AllocError>
        ensures ok { IfOk result (λ _. self.new ≡ self.old ++ (numbers_of refs.now ++ last ∷ [])) }
        ensures err { OnErr result (self.new ≡ self.old) }
    {
        self.words.reserve(refs.len().saturating_add(1))?;
        for r in refs {
            self.words.push(r.number);
        }
        self.words.push(last);
        Ok(())
    }

    /// The words of another list from a place on, or none.
    pub fn append_from(&mut self, more: &WordList, place: usize) -> Result<(), AllocError>
        ensures ok { IfOk result (λ _. self.new ≡ self.old ++ drop place more.now) }
        ensures err { OnErr result (self.new ≡ self.old) }
    {
        self.words.reserve(more.len().saturating_sub(place))?;
        for n in place..more.len() {
            self.words.push(more.get(n));
        }
        Ok(())
    }

    /// Drops the words from the place on.
    pub fn truncate(&mut self, place: usize)
        ensures { self.new ≡ take place self.old }
    {
        if place < self.words.len() {
            self.words.truncate(place);
        }
    }

    /// Drops the last word, where there is one.
    pub fn drop_last(&mut self)
        ensures { self.new ≡ take (length self.old - 1) self.old }
    {
        let count = self.words.len();
        if count > 0 {
            self.words.truncate(count - 1);
        }
    }
}
