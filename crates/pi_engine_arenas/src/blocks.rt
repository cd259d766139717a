//! The slots of the clauses that run, in blocks, with the trail of what was written to protected ones.
ghost use Rattle.std.specs.Prelude.{◌≡◌, ℕ, ◌+◌, ◌-◌, ◌<◌, ◌++◌, ◌∷◌, [], ◌≤◌, Option, Some, None, false, cond, length, map, max, replicate, take, drop, slice_set, slice_index_or, slice_get, IfOk, OnErr};
ghost use Rattle.pi_engine_arenas.specs.Blocks.{KeepsBlocks, IsKept, IsOlder, brought_back, slots_before};

use pi_constraints::Ref;
use std::alloc::{AllocError, Global};
use std::marker::Model;

/// A slot that was written, and what it held before.
#[derive(Clone, Copy)]
pub struct Written {
    pub slot: usize,
    pub old: Option<Ref>,
}

/// The contents of the first slots at one moment, to come back to: how many slots, and how many writes were noted then.
#[derive(Clone, Copy)]
pub struct BlocksMark {
    pub slots: usize,
    pub trail: usize,
}

/// The slots of all calls that are under way, a block for each. A write to a protected slot is noted, so that what it held
/// can be brought back.
#[derive(Drop)]
pub struct Blocks {
    slots: Vec<Option<Ref>>,
    trail: Vec<Written>,
    /// How many slots are protected.
    kept: usize,
}

impl Model for Blocks {
    ghost use Rattle.pi_engine_arenas.specs.Blocks.{BlocksView};

    ghost Value = { BlocksView };

    ghost view = { λ a. record { slots = a.slots.items; trail = a.trail.items; kept = a.kept } };
}

impl Blocks {
    pub fn new(alloc: Global) -> Blocks
        ensures { result ≡ record { slots = []; trail = []; kept = 0 } }
    {
        Blocks {
            slots: Vec::new(alloc),
            trail: Vec::new(alloc),
            kept: 0,
        }
    }

    /// The number of slots.
    pub fn count(&self) -> usize
        ensures { result ≡ length self.now.slots }
    {
        self.slots.len()
    }

    /// What a slot holds.
    pub fn get(&self, slot: usize) -> Option<Ref>
        ensures is { result ≡ slice_index_or self.now.slots slot None }
        ensures most { length self.now.slots ≤ 18446744073709551615 }
    {
        self.slots.get(slot).copied().flatten()
    }

    /// What a slot holds; None past the last slot.
    pub fn held(&self, slot: usize) -> Option<Option<Ref>>
        ensures is { result ≡ slice_get self.now.slots slot }
        ensures most { length self.now.slots ≤ 18446744073709551615 }
    {
        self.slots.get(slot).copied()
    }

    /// Puts a term into a slot, where there is one.
    #[tactic(auto, using(crate::proofs::BlocksLemmas::keeps_noted, crate::proofs::BlocksLemmas::keeps_free, crate::proofs::BlocksLemmas::keeps_same))]
    #[inline(always)]
    pub fn set(&mut self, slot: usize, term: Ref) -> Result<(), AllocError>
        ensures ok { IfOk result (λ _. self.new.slots ≡ slice_set self.old.slots slot (Some term)) }
        ensures kept { self.new.kept ≡ self.old.kept }
        ensures keeps { KeepsBlocks self.old self.new }
        ensures err { OnErr result (self.new ≡ self.old) }
        ensures most { length self.old.slots ≤ 18446744073709551615 }
    {
        if slot >= self.slots.len() {
            return Ok(());
        }
        if slot < self.kept {
            let old = self.slots[slot];
            self.trail.push(Written { slot, old })?;
        }
        self.slots[slot] = Some(term);
        Ok(())
    }

    /// Adds empty slots.
    #[tactic(auto, using(crate::proofs::BlocksLemmas::keeps_same, crate::proofs::BlocksLemmas::keeps_more))]
    pub fn push_empty(&mut self, count: u32) -> Result<(), AllocError>
        ensures ok { IfOk result (λ _. self.new.slots ≡ self.old.slots ++ replicate count None) }
        ensures kept { self.new.kept ≡ self.old.kept }
        ensures keeps { KeepsBlocks self.old self.new }
    {
        let Some(end) = self.slots.len().checked_add(count as usize) else {
            return Err(AllocError);
        };
        self.slots.resize(end, None)?;
        Ok(())
    }

    /// Adds filled slots.
    #[tactic(auto, using(crate::proofs::BlocksLemmas::keeps_same, crate::proofs::BlocksLemmas::keeps_then))]
    pub fn push_terms(&mut self, terms: &[Ref]) -> Result<(), AllocError>
        ensures ok { IfOk result (λ _. self.new.slots ≡ self.old.slots ++ map (λ t. Some t) terms.now) }
        ensures kept { self.new.kept ≡ self.old.kept }
        ensures keeps { KeepsBlocks self.old self.new }
    {
        for term in terms {
            self.push(Some(*term))?;
        }
        Ok(())
    }

    /// Adds slots with these contents.
    #[tactic(auto, using(crate::proofs::BlocksLemmas::keeps_same, crate::proofs::BlocksLemmas::keeps_more))]
    pub fn push_slots(&mut self, slots: &[Option<Ref>]) -> Result<(), AllocError>
        ensures ok { IfOk result (λ _. self.new.slots ≡ self.old.slots ++ slots.now) }
        ensures kept { self.new.kept ≡ self.old.kept }
        ensures keeps { KeepsBlocks self.old self.new }
    {
        self.slots.extend_from_slice(slots)?;
        Ok(())
    }

    /// Adds a slot.
    #[tactic(auto, using(crate::proofs::BlocksLemmas::keeps_more, crate::proofs::BlocksLemmas::keeps_same))]
    fn push(&mut self, slot: Option<Ref>) -> Result<(), AllocError>
        ensures ok { IfOk result (λ _. self.new.slots ≡ self.old.slots ++ slot ∷ []) }
        ensures kept { self.new.kept ≡ self.old.kept }
        ensures keeps { KeepsBlocks self.old self.new }
    {
        self.slots.push(slot)?;
        Ok(())
    }

    /// Gives back the slots from this one on, as far as they aren't protected.
    #[tactic(auto, using(crate::proofs::BlocksLemmas::keeps_fewer))]
    pub fn truncate(&mut self, count: usize)
        ensures fewer { self.new.slots ≡ take (max count self.old.kept) self.old.slots }
        ensures trail { self.new.trail ≡ self.old.trail }
        ensures kept { self.new.kept ≡ self.old.kept }
        ensures keeps { KeepsBlocks self.old self.new }
    {
        let count = count.max(self.kept);
        self.slots.truncate(count);
    }

    /// A mark of what the first so many slots hold now.
    pub fn mark(&self, slots: usize) -> BlocksMark
        ensures slots { result.slots ≡ slots }
        ensures trail { result.trail ≡ length self.now.trail }
    {
        BlocksMark {
            slots,
            trail: self.trail.len(),
        }
    }

    /// Protects so many slots, and no others.
    pub fn protect(&mut self, slots: usize)
        ensures kept { self.new.kept ≡ slots }
        ensures slots { self.new.slots ≡ self.old.slots }
        ensures trail { self.new.trail ≡ self.old.trail }
    {
        self.kept = slots;
    }

    /// Protects so many slots, and no others. Of the writes behind the first so many that were noted, the newest are
    /// forgotten as long as they are to slots that aren't protected.
    pub fn release(&mut self, slots: usize, noted: usize)
        ensures kept { self.new.kept ≡ slots }
        ensures slots { self.new.slots ≡ self.old.slots }
        ensures keeps { (m : BlocksMark) → IsKept self.old m → m.slots ≤ slots → m.trail ≤ noted →
            IsKept self.new m × (brought_back m self.new ≡ brought_back m self.old) }
    {
        self.kept = slots;
        for _i in noted..self.trail.len() {
            if !self.forget() {
                return;
            }
        }
    }

    /// Forgets the newest write that was noted, where it is to a slot that isn't protected; whether it is.
    fn forget(&mut self) -> bool
        ensures keeps { (m : BlocksMark) → m.slots ≤ self.old.kept → m.trail < length self.old.trail →
            brought_back m self.new ≡ brought_back m self.old }
        ensures slots { self.new.slots ≡ self.old.slots }
        ensures kept { self.new.kept ≡ self.old.kept }
        ensures fewer { length self.new.trail ≡ cond result (length self.old.trail - 1) (length self.old.trail) }
        ensures stays { result ≡ false → self.new ≡ self.old }
    {
        match self.trail.last() {
            Some(written) if written.slot >= self.kept => {}
            _ => return false,
        }
        let _ = self.trail.pop();
        true
    }

    /// Brings back what the slots of a good mark held. Older marks stay good.
    pub fn cut(&mut self, mark: BlocksMark)
        ensures back { IsKept self.old mark → self.new.slots ≡ brought_back mark self.old }
        ensures trail { IsKept self.old mark → self.new.trail ≡ take mark.trail self.old.trail }
        ensures kept { self.new.kept ≡ self.old.kept }
        ensures older { (m : BlocksMark) → IsKept self.old mark → IsKept self.old m → IsOlder m mark →
            IsKept self.new m × (brought_back m self.new ≡ brought_back m self.old) }
    {
        for _i in mark.trail..self.trail.len() {
            self.take_back();
        }
        self.slots.truncate(mark.slots);
    }

    /// Takes the newest noted write back.
    #[tactic(auto, using(crate::proofs::BlocksLemmas::slots_before_last, crate::proofs::BlocksLemmas::slots_before_none))]
    fn take_back(&mut self)
        ensures back { (n : ℕ) → n < length self.old.trail →
            slots_before (drop n self.new.trail) self.new.slots ≡ slots_before (drop n self.old.trail) self.old.slots }
        ensures trail { (n : ℕ) → n < length self.old.trail → take n self.new.trail ≡ take n self.old.trail }
        ensures fewer { length self.new.trail ≡ length self.old.trail - 1 }
        ensures kept { self.new.kept ≡ self.old.kept }
    {
        if let Some(written) = self.trail.pop() {
            if written.slot < self.slots.len() {
                self.slots[written.slot] = written.old;
            }
        }
    }
}
