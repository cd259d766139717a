//! The stack of entries, choices and levels, with the frames, blocks and collected values that they protect.
ghost use Rattle.std.specs.Prelude.{◌≡◌, ◌++◌, ◌∷◌, [], ◌+◌, ◌-◌, ◌^◌, Some, ◌≤◌, ◌<◌, length, take, max, slice_set, None, IfOk, IfSome, IfNone, OnOk};
ghost use Rattle.pi_engine_arenas.specs.Blocks.{IsKept, IsOlder, brought_back};
ghost use Rattle.pi_engine_arenas.specs.Frames.{point_behind, PushesBehind};
ghost use Rattle.pi_engine_arenas.specs.Arenas.{no_arenas};
ghost use Rattle.pi_engine_arenas.specs.Arenas.{Entry, entry_at, FollowsFrame, LeavesLevel, view_of, newest, slots_kept_by, noted_by, with_kind};

use crate::blocks::{Blocks, BlocksMark};
use crate::frames::{Frames, Point};
use pi_engine_code::Step;
use pi_label::{Choice, ValueWord};
use pi_terms::Term;
use std::alloc::{AllocError, Global};

/// What an entry waits for. Places are those of goals, the numbers of rules and predicates those of the tables.
#[derive(Clone, Copy)]
pub enum Kind {
    /// A choice: the rules of a call from this one on, by the numbers of its predicate and of the rule.
    Rules(u32, u32),
    /// A choice: the facts that a call may still unify with, from this one on, by the numbers of its predicate and of the fact.
    Facts(u32, u32),
    /// A choice: so many branches from a place on.
    Branches(u32, u32),
    /// A choice: the alternatives that are left of the variable that a call of `solve` has picked, by the place of that call.
    Alternatives(u32, Alternatives),
    /// A level whose goal is run for its first answer, or for all of them.
    Strict(Strict),
    /// A level that takes what its goal raises, by the place of the `catch`.
    Catch(u32),
    /// The newest catch that is open when this one is come back to was left by an answer, and keeps its choices.
    Exit,
}

/// The alternatives of a variable, by its number, that follow the last one that was tried; all of them where that is None.
#[derive(Clone, Copy)]
pub struct Alternatives {
    pub variable: u64,
    pub word: ValueWord,
    pub after: Option<Choice>,
}

/// What a level does with the answers of its goal.
#[derive(Clone, Copy)]
pub enum Strict {
    /// These three by their place.
    Once(u32),
    Not(u32),
    If(u32),
    /// The condition of a rule, by the numbers of its predicate and of the rule.
    Guard(u32, u32),
    /// A function call, by its place, and where the caller's block begins. The entry's own block is the call's.
    Apply(u32, usize),
    /// By its place, and where its values begin among those that are collected.
    Collect(u32, usize),
    /// By its place, and the number of answers so far.
    Count(u32, u64),
    /// A search of `solve` for the best answer, round by round. The entry's own block has what the search needs.
    Search(Search),
}

/// A round of a search: the places of the call of `solve` and of the goal that labels in a round, where the caller's block begins,
/// whether the greatest value is wanted, and whether what the round posted is settled first. After the block of that goal stands the
/// expression. What the entry's mark keeps beside is the answer that was found last, with how many rounds may follow the present one.
#[derive(Clone, Copy)]
pub struct Search {
    pub place: u32,
    pub goal: u32,
    pub caller: usize,
    pub greatest: bool,
    pub is_settling: bool,
}

/// What an entry comes back to, beside the state of the store.
#[derive(Clone, Copy)]
pub struct Back {
    /// How many frames are kept.
    pub frames: usize,
    pub blocks: BlocksMark,
    /// The present block, and the frame to go on with behind the goal.
    pub base: usize,
    pub frame: usize,
    /// The level that is open outside, by the number of its entry; 0 for none.
    pub level: usize,
    pub kind: Kind,
}

/// A choice or a level.
#[derive(Drop)]
pub struct Entry<M> {
    pub mark: M,
    pub back: Back,
}

/// What a run keeps beside its store: the frames, the blocks, the choices and levels on one stack, the newest last, and
/// the values that are collected. Entries are numbered from 1.
#[derive(Drop)]
pub struct Arenas<M> {
    pub frames: Frames,
    pub blocks: Blocks,
    entries: Vec<Entry<M>>,
    /// The newest open level, by the number of its entry; 0 for none.
    pub level: usize,
    pub collected: Vec<Term>,
}

impl<M: Drop> Arenas<M> {
    pub fn new(alloc: Global) -> Arenas<M>
        ensures { view_of result ≡ no_arenas }
    {
        Arenas {
            frames: Frames::new(alloc),
            blocks: Blocks::new(alloc),
            entries: Vec::new(alloc),
            level: 0,
            collected: Vec::new(alloc),
        }
    }

    /// How many entries there are, which is the number of the newest.
    pub fn count(&self) -> usize
        ensures { result ≡ length self.now.entries.items }
    {
        self.entries.len()
    }

    /// The newest entry.
    pub fn newest(&self) -> Option<&Entry<M>>
        ensures some { IfSome result (λ e. newest self.now.entries.items ≡ Some e.now) }
        ensures none { IfNone result (newest self.now.entries.items ≡ None) }
    {
        self.entries.last()
    }

    /// The entry with this number; None for 0.
    pub fn entry(&self, number: usize) -> Option<&Entry<M>>
        ensures some { IfSome result (λ e. entry_at self.now.entries.items number ≡ Some e.now) }
        ensures none { IfNone result (entry_at self.now.entries.items number ≡ None) }
    {
        match number.checked_sub(1) {
            None => None,
            Some(index) => self.entries.get(index),
        }
    }

    /// Puts an entry on the stack that comes back to the present frames and to the first so many slots.
    pub fn push(
        &mut self,
        mark: M,
        slots: usize,
        base: usize,
        frame: usize,
        kind: Kind,
    ) -> Result<(), AllocError>
        ensures entries { OnOk result (self.new.entries.items ≡
            self.old.entries.items ++ record {
              mark = mark;
              back = record {
                frames = length self.old.frames;
                blocks = record { slots = slots; trail = length self.old.blocks.trail };
                base = base;
                frame = frame;
                level = self.old.level;
                kind = kind;
              };
            } ∷ []) }
        ensures kept { OnOk result (self.new.blocks.kept ≡ slots) }
        ensures slots { self.new.blocks.slots ≡ self.old.blocks.slots }
        ensures trail { self.new.blocks.trail ≡ self.old.blocks.trail }
        ensures frames { self.new.frames ≡ self.old.frames }
        ensures level { self.new.level ≡ self.old.level }
        ensures collected { self.new.collected.items ≡ self.old.collected.items }
    {
        let back = Back {
            frames: self.frames.count(),
            blocks: self.blocks.mark(slots),
            base,
            frame,
            level: self.level,
            kind,
        };
        self.entries.push(Entry { mark, back })?;
        self.blocks.protect(slots);
        Ok(())
    }

    /// Makes the newest entry the newest open level.
    pub fn open(&mut self)
        ensures level { self.new.level ≡ length self.old.entries.items }
        ensures entries { self.new.entries.items ≡ self.old.entries.items }
        ensures frames { self.new.frames ≡ self.old.frames }
        ensures blocks { self.new.blocks ≡ self.old.blocks }
        ensures collected { self.new.collected.items ≡ self.old.collected.items }
    {
        self.level = self.entries.len();
    }

    /// Lets the entry with this number wait for something else.
    pub fn set_kind(&mut self, number: usize, kind: Kind)
        ensures entries { (e : Entry M) → entry_at self.old.entries.items number ≡ Some e →
            self.new.entries.items ≡ slice_set self.old.entries.items (number - 1) (with_kind e kind) }
        ensures blocks { self.new.blocks ≡ self.old.blocks }
        ensures frames { self.new.frames ≡ self.old.frames }
        ensures level { self.new.level ≡ self.old.level }
        ensures collected { self.new.collected.items ≡ self.old.collected.items }
    {
        if number > 0 && number <= self.entries.len() {
            let entry = &mut self.entries[number - 1];
            entry.back.kind = kind;
        }
    }

    /// Puts another mark into the entry with this number.
    pub fn set_mark(&mut self, number: usize, mark: M)
        ensures entries { (e : Entry M) → entry_at self.old.entries.items number ≡ Some e →
            self.new.entries.items ≡ slice_set self.old.entries.items (number - 1) (record { mark = mark; back = e.back }) }
        ensures blocks { self.new.blocks ≡ self.old.blocks }
        ensures frames { self.new.frames ≡ self.old.frames }
        ensures level { self.new.level ≡ self.old.level }
        ensures collected { self.new.collected.items ≡ self.old.collected.items }
    {
        if number > 0 && number <= self.entries.len() {
            let entry = &mut self.entries[number - 1];
            entry.mark = mark;
        }
    }

    /// Lets the newest entry wait for something else.
    pub fn set_newest(&mut self, kind: Kind)
        ensures entries { (e : Entry M) → newest self.old.entries.items ≡ Some e →
            self.new.entries.items ≡ slice_set self.old.entries.items (length self.old.entries.items - 1) (with_kind e kind) }
        ensures blocks { self.new.blocks ≡ self.old.blocks }
        ensures frames { self.new.frames ≡ self.old.frames }
        ensures level { self.new.level ≡ self.old.level }
        ensures collected { self.new.collected.items ≡ self.old.collected.items }
    {
        let number = self.entries.len();
        self.set_kind(number, kind);
    }

    /// Drops the entries behind the first so many.
    pub fn truncate(&mut self, count: usize)
        ensures entries { self.new.entries.items ≡ take count self.old.entries.items }
        ensures kept { self.new.blocks.kept ≡ slots_kept_by (newest (take count self.old.entries.items)) }
        ensures slots { self.new.blocks.slots ≡ self.old.blocks.slots }
        ensures keeps { (m : BlocksMark) → IsKept self.old.blocks m → m.slots ≤ self.new.blocks.kept →
            m.trail ≤ noted_by (newest (take count self.old.entries.items)) →
            IsKept self.new.blocks m × (brought_back m self.new.blocks ≡ brought_back m self.old.blocks) }
        ensures collected { self.new.collected.items ≡ self.old.collected.items }
        ensures frames { self.new.frames ≡ self.old.frames }
        ensures level { self.new.level ≡ self.old.level }
    {
        self.entries.truncate(count);
        let kept = self.kept_blocks();
        self.blocks.release(kept.slots, kept.trail);
    }

    /// What the newest entry keeps of the blocks.
    fn kept_blocks(&self) -> BlocksMark
        ensures slots { result.slots ≡ slots_kept_by (newest self.now.entries.items) }
        ensures trail { result.trail ≡ noted_by (newest self.now.entries.items) }
    {
        match self.entries.last() {
            Some(entry) => entry.back.blocks,
            None => BlocksMark { slots: 0, trail: 0 },
        }
    }

    /// Drops the newest entry.
    pub fn pop(&mut self)
        ensures entries { self.new.entries.items ≡ take (length self.old.entries.items - 1) self.old.entries.items }
        ensures kept { self.new.blocks.kept ≡ slots_kept_by (newest (take (length self.old.entries.items - 1) self.old.entries.items)) }
        ensures slots { self.new.blocks.slots ≡ self.old.blocks.slots }
        ensures keeps { (m : BlocksMark) → IsKept self.old.blocks m → m.slots ≤ self.new.blocks.kept →
            m.trail ≤ noted_by (newest (take (length self.old.entries.items - 1) self.old.entries.items)) →
            IsKept self.new.blocks m × (brought_back m self.new.blocks ≡ brought_back m self.old.blocks) }
        ensures collected { self.new.collected.items ≡ self.old.collected.items }
        ensures frames { self.new.frames ≡ self.old.frames }
        ensures level { self.new.level ≡ self.old.level }
    {
        let count = self.entries.len().saturating_sub(1);
        self.truncate(count);
    }

    /// Brings the frames and the blocks back to those of the newest entry, and opens its level.
    pub fn come_back(&mut self, back: Back)
        ensures frames { self.new.frames ≡ take back.frames self.old.frames }
        ensures back { IsKept self.old.blocks back.blocks → self.new.blocks.slots ≡ brought_back back.blocks self.old.blocks }
        ensures trail { IsKept self.old.blocks back.blocks → self.new.blocks.trail ≡ take back.blocks.trail self.old.blocks.trail }
        ensures older { (m : BlocksMark) → IsKept self.old.blocks back.blocks → IsKept self.old.blocks m → IsOlder m back.blocks →
            IsKept self.new.blocks m × (brought_back m self.new.blocks ≡ brought_back m self.old.blocks) }
        ensures kept { self.new.blocks.kept ≡ self.old.blocks.kept }
        ensures level { self.new.level ≡ back.level }
        ensures entries { self.new.entries.items ≡ self.old.entries.items }
        ensures collected { self.new.collected.items ≡ self.old.collected.items }
    {
        self.frames.truncate(back.frames);
        self.blocks.cut(back.blocks);
        self.level = back.level;
    }

    /// Leaves a level, whose entry has this number, by an answer: the entries from it on are dropped, and what was made
    /// for its goal. The point that follows.
    pub fn leave(&mut self, number: usize, back: Back) -> Point
        ensures leaves { LeavesLevel (view_of self.old) (view_of self.new) (number - 1) back }
        ensures result { result ≡ record { place = 0; count = 0; base = back.base; frame = back.frame } }
        ensures collected { self.new.collected.items ≡ self.old.collected.items }
    {
        self.truncate(number.saturating_sub(1));
        self.frames.truncate(back.frames);
        self.blocks.truncate(back.blocks.slots);
        self.level = back.level;
        behind_level(back)
    }

    /// Goes back to the entry with this number, which stays: the entries behind it are dropped, and what was made since, but for
    /// the first so many slots.
    pub fn return_to(&mut self, number: usize, back: Back, slots: usize)
        ensures entries { self.new.entries.items ≡ take number self.old.entries.items }
        ensures kept { self.new.blocks.kept ≡ slots_kept_by (newest (take number self.old.entries.items)) }
        ensures slots { self.new.blocks.slots ≡ take (max slots self.new.blocks.kept) self.old.blocks.slots }
        ensures keeps { (m : BlocksMark) → IsKept self.old.blocks m → m.slots ≤ self.new.blocks.kept →
            m.trail ≤ noted_by (newest (take number self.old.entries.items)) →
            IsKept self.new.blocks m × (brought_back m self.new.blocks ≡ brought_back m self.old.blocks) }
        ensures frames { self.new.frames ≡ take back.frames self.old.frames }
        ensures level { self.new.level ≡ back.level }
        ensures collected { self.new.collected.items ≡ self.old.collected.items }
    {
        self.truncate(number);
        self.frames.truncate(back.frames);
        self.blocks.truncate(slots);
        self.level = back.level;
    }

    /// The frame for what is left behind a point's first goal: the point's own where nothing is.
    pub fn frame_behind(&mut self, point: Point, step: Step) -> Result<usize, AllocError>
        ensures ok { IfOk result (λ n. PushesBehind point step self.old.frames self.new.frames n) }
        ensures blocks { self.new.blocks ≡ self.old.blocks }
        ensures entries { self.new.entries.items ≡ self.old.entries.items }
        ensures level { self.new.level ≡ self.old.level }
        ensures collected { self.new.collected.items ≡ self.old.collected.items }
    {
        if point.count <= 1 {
            return Ok(point.frame);
        }
        self.frames.push(behind(point, step))
    }

    /// Goes on with a frame behind goals that are done, and gives back what isn't kept.
    pub fn go_on(&mut self, point: Point, next: Point) -> Point
        ensures follows { FollowsFrame (view_of self.old) (view_of self.new) point next }
        ensures result { result ≡ next }
        ensures collected { self.new.collected.items ≡ self.old.collected.items }
    {
        let kept = match self.entries.last() {
            Some(entry) => entry.back.frames,
            None => 0,
        };
        self.frames
            .truncate(point.frame.saturating_sub(1).max(kept));
        if next.base != point.base {
            self.blocks.truncate(point.base);
        }
        next
    }
}

/// The point behind its first goal.
pub fn behind(point: Point, step: Step) -> Point
    ensures { point.place + step.size < 2 ^ 32 → result ≡ point_behind point step }
{
    Point {
        place: point.place.saturating_add(step.size),
        count: point.count.saturating_sub(1),
        base: point.base,
        frame: point.frame,
    }
}

/// The point behind the goal of a level: no goals of its own are left.
pub fn behind_level(back: Back) -> Point
    ensures { result ≡ record { place = 0; count = 0; base = back.base; frame = back.frame } }
{
    Point {
        place: 0,
        count: 0,
        base: back.base,
        frame: back.frame,
    }
}
