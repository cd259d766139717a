//! Points, where a run is, and the frames that say what comes behind them.
ghost use Rattle.std.specs.Prelude.{◌≡◌, ◌++◌, ◌∷◌, [], length, take, IfOk, OnOk, OnErr};
ghost use Rattle.pi_engine_arenas.specs.Frames.{frame_at};
ghost use Rattle.pi_engine_arenas.specs.Frames.{slot_number};

use pi_engine_code::Step;
use std::alloc::{AllocError, Global};
use std::marker::Model;

/// Where a run is: so many goals from a place on, one after the other, in the block that begins at a base, and then what
/// the frame with that number says. Frame 0 says that the newest open level has an answer.
#[derive(Clone, Copy)]
pub struct Point {
    pub place: u32,
    pub count: u32,
    pub base: usize,
    pub frame: usize,
}

/// A call that is made: its predicate, where its block begins, and the frame to go on with.
#[derive(Clone, Copy)]
pub struct Call {
    pub predicate: u32,
    pub base: usize,
    pub frame: usize,
}

/// The points to go on with, by their numbers from 1 on. A contract sees the list of them.
#[derive(Drop)]
pub struct Frames {
    points: Vec<Point>,
}

impl Model for Frames {
    ghost use Rattle.std.specs.Prelude.{List};
    ghost use Rattle.pi_engine_arenas.specs.declared.frames.Point.{Point};

    ghost Value = { List Point };

    ghost view = { λ a. a.points.items };
}

impl Point {
    /// Where the slots of the clause begin that a step of the point belongs to.
    pub fn first_slot(&self, step: Step) -> usize
        ensures { result ≡ slot_number self.now.base step.first_slot }
    {
        self.base.saturating_add(step.first_slot as usize)
    }
}

impl Frames {
    pub fn new(alloc: Global) -> Frames
        ensures { result ≡ [] }
    {
        Frames {
            points: Vec::new(alloc),
        }
    }

    /// How many frames there are, which is the number of the newest.
    pub fn count(&self) -> usize
        ensures { result ≡ length self.now }
    {
        self.points.len()
    }

    /// Adds a frame, and answers its number.
    pub fn push(&mut self, point: Point) -> Result<usize, AllocError>
        ensures number { IfOk result (λ number. number ≡ length self.new) }
        ensures ok { OnOk result (self.new ≡ self.old ++ point ∷ []) }
        ensures err { OnErr result (self.new ≡ self.old) }
    {
        self.points.push(point)?;
        Ok(self.points.len())
    }

    /// The frame with this number; None for 0.
    pub fn get(&self, number: usize) -> Option<Point>
        ensures { result ≡ frame_at self.now number }
    {
        match number.checked_sub(1) {
            None => None,
            Some(index) => self.points.get(index).copied(),
        }
    }

    /// Keeps so many frames.
    pub fn truncate(&mut self, count: usize)
        ensures { self.new ≡ take count self.old }
    {
        self.points.truncate(count);
    }
}
