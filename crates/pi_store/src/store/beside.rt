//! A store beside a mark.
ghost use Rattle.std.specs.Prelude.{◌≡◌, ℕ, IfOk, OnErr, option_map};
ghost use Rattle.pi_constraints.specs.Store.{IsGood, Stays, Changes, KeepsBeside, BringsBack};
ghost use Rattle.pi_region.specs.Back.{at_length};
ghost use Rattle.pi_store.specs.Holding.{seen, order, words_of};

use crate::mark::{KeptStore, RawMark};
use crate::store::RawStore;
use std::alloc::{AllocError, Global};

impl RawStore {
    /// A copy of the store.
    fn copied(&self) -> Result<RawStore, AllocError>
        ensures { IfOk result (λ made. made ≡ self.now) }
    {
        let names = self.names.copied(self.alloc)?;
        let words = self.words.copied(self.alloc)?;
        Ok(RawStore {
            alloc: self.alloc,
            names,
            words,
        })
    }

    /// A mark that brings back what another one does, and has a copy of the store beside. It costs as much as there are words and names.
    pub fn keep_beside(
        &self,
        alloc: Global,
        m: &RawMark,
        number: u128,
    ) -> Result<RawMark, AllocError>
        ensures { IfOk result (λ kept. IsGood (seen self.now) m.now → KeepsBeside order (seen self.now) m.now kept number) }
    {
        let store = self.copied()?;
        let kept = Box::new(alloc, KeptStore { store, number })?;
        Ok(RawMark {
            length: m.length,
            beside: Some(kept),
        })
    }

    /// The number that is kept with a copy of the store beside a mark; None where there is none. It takes no memory.
    pub fn number_beside(&self, m: &RawMark) -> Option<u128>
        ensures { result ≡ option_map (λ b. b.number) ((seen self.now).beside m.now) }
    {
        match &m.beside {
            Some(kept) => Some(kept.number),
            None => None,
        }
    }

    /// Brings back the state that a mark has beside, where the store has come back to the mark since.
    pub fn bring_back(&mut self, m: &RawMark) -> Result<(), AllocError>
        ensures ok { IfOk result (λ _. BringsBack (seen self.old) (seen self.new) m.now) }
        ensures err { OnErr result (Stays (seen self.old) (seen self.new)) }
    {
        match &m.beside {
            Some(kept) => {
                self.put_back(&kept.store)?;
                Ok(())
            }
            None => Ok(()),
        }
    }

    /// The words of a copy in the place of the store's own, where the store has all of its names.
    fn put_back(&mut self, kept: &RawStore) -> Result<(), AllocError>
        ensures ok { IfOk result (λ _. (len : ℕ) → words_of (at_length len kept.now.image) ≡ words_of self.old.image →
            Changes (seen self.old) (seen self.new) (seen kept.now).now.state) }
        ensures err { OnErr result (Stays (seen self.old) (seen self.new)) }
    {
        if !self.names.has_all(&kept.names) {
            return Err(AllocError);
        }
        let words = kept.words.copied(self.alloc)?;
        self.words = words;
        Ok(())
    }
}
