//! The trait of stores that keep a state beside a mark.
ghost use Rattle.std.specs.Prelude.{◌≡◌, IfOk, OnErr, option_map};
ghost use Rattle.pi_constraints.specs.Store.{IsGood, Stays, KeepsBeside, BringsBack};

use crate::stored::StoredDomains;
use std::alloc::{AllocError, Global};

/// A store whose marks can keep the state of a later moment beside what they bring back. It costs what was changed in between.
pub trait KeptStates: StoredDomains {
    /// A mark that brings back what a good mark does, and keeps the present state beside, with a number.
    fn keep(&self, alloc: Global, m: &Self::Mark, number: u128) -> Result<Self::Mark, AllocError>
        ensures { IfOk result (λ kept. IsGood (Self.seen self.now) m.now →
            KeepsBeside Self.order (Self.seen self.now) m.now kept number) };

    /// The number that is kept with a state beside a mark; None where none is kept. It takes no memory.
    fn number_beside(&self, m: &Self::Mark) -> Option<u128>
        ensures { result ≡ option_map (λ b. b.number) ((Self.seen self.now).beside m.now) };

    /// Brings back the state that a mark keeps beside, where the store has come back to the mark since.
    fn bring_back(&mut self, m: &Self::Mark) -> Result<(), AllocError>
        ensures ok { IfOk result (λ _. BringsBack (Self.seen self.old) (Self.seen self.new) m.now) }
        ensures err { OnErr result (Stays (Self.seen self.old) (Self.seen self.new)) };
}
