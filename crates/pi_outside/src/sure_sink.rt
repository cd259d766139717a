//! A sink in memory that never fails.
ghost use Rattle.std.specs.Prelude.{◌≡◌, ℕ, List, [], ◌++◌, Ok, false, length, IfOk};
ghost use Rattle.pi_outside.specs.Memory.{after_piece, told_bytes, sure_wrote, HasTaken};

use crate::{Failed, Sink};
use std::alloc::{AllocError, Global};
use std::marker::Model;

/// A sink that takes every piece whole and keeps the first bytes, up to the room that its maker reserves. It tells
/// what it has taken exactly while that has room, and never fails.
#[derive(Drop)]
pub struct SureSink {
    kept: Vec<u8>,
    room: usize,
    is_over: bool,
}

impl Model for SureSink {
    ghost use Rattle.pi_outside.specs.Memory.{SinkOfFirst, IsReserved};

    ghost Value = { SinkOfFirst };

    ghost view = { λ s. record { kept = s.kept.items; room = s.room; is_over = s.is_over } };

    ghost invariant = { λ s. IsReserved s.kept s.room };
}

impl SureSink {
    /// An empty sink that keeps up to this number of bytes.
    pub fn new(alloc: Global, room: usize) -> Result<SureSink, AllocError>
        ensures empty { IfOk result (λ sink. sink ≡ record { kept = []; room = room; is_over = false }) }
        ensures law { IfOk result (HasTaken []) }
    {
        Ok(SureSink {
            kept: Vec::with_capacity(alloc, room)?,
            room,
            is_over: false,
        })
    }

    /// The first bytes of all that it has taken.
    pub fn bytes(&self) -> &[u8]
        ensures { result.now ≡ self.now.kept }
    {
        &self.kept
    }
}

impl Sink for SureSink {
    ghost taken = { told_bytes };

    ghost faults = { λ _. 0 };

    ghost wrote = { sure_wrote };

    /// Takes the whole piece.
    fn write(&mut self, bytes: &[u8]) -> Result<usize, Failed>
        ensures ok { result ≡ Ok (length bytes.now) }
        ensures after { self.new ≡ after_piece self.old bytes.now }
        ensures law { (all : List ℕ) → HasTaken all self.old → HasTaken (all ++ bytes.now) self.new }
    {
        let fitting = bytes.len().min(self.room - self.kept.len());
        // The room is reserved, so this doesn't allocate.
        let _ = self.kept.extend_from_slice(&bytes[..fitting]);
        self.is_over |= fitting < bytes.len();
        Ok(bytes.len())
    }
}
