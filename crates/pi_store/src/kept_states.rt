//! The store over raw words as one that keeps a state beside a mark.
use crate::mark::RawMark;
use crate::store::RawStore;
use pi_constraints::KeptStates;
use std::alloc::{AllocError, Global};

impl KeptStates for RawStore {
    fn keep(&self, alloc: Global, m: &RawMark, number: u128) -> Result<RawMark, AllocError> {
        let kept = self.keep_beside(alloc, m, number)?;
        Ok(kept)
    }

    fn number_beside(&self, m: &RawMark) -> Option<u128> {
        self.number_beside(m)
    }

    fn bring_back(&mut self, m: &RawMark) -> Result<(), AllocError> {
        self.bring_back(m)?;
        Ok(())
    }
}
