//! A sink in memory, some of whose calls may be made to fail.
ghost use Rattle.std.specs.Prelude.{◌≡◌, ◌≤◌, ◌+◌, [], ◌∷◌, ◌++◌, ◌||◌, Some, length, nat_lt, IfOk, OnOk, OnErr, is_err};
ghost use Rattle.pi_outside.specs.Faults.{NeverFalls, Rose};
ghost use Rattle.pi_outside.specs.Calls.{is_due, passed, failed};
ghost use Rattle.pi_outside.specs.Memory.{memory_wrote};
ghost use Rattle.pi_outside.specs.Writes.{write_of};

use crate::schedule::Schedule;
use crate::{Failed, Sink};
use std::alloc::{AllocError, Global};
use std::marker::Model;

/// A sink that takes whole pieces into a buffer of a size that its maker reserves. Past that it fails.
#[derive(Drop)]
pub struct MemorySink {
    taken: Vec<u8>,
    room: usize,
    calls: Schedule,
}

impl Model for MemorySink {
    ghost use Rattle.pi_outside.specs.Memory.{SinkOfRoom, IsReserved};

    ghost Value = { SinkOfRoom };

    ghost view = { λ s. record { taken = s.taken.items; room = s.room; calls = s.calls } };

    ghost invariant = { λ s. IsReserved s.taken s.room };
}

impl MemorySink {
    /// An empty sink with room for this number of bytes, none of whose calls is to fail.
    pub fn new(alloc: Global, room: usize) -> Result<MemorySink, AllocError>
        ensures { IfOk result (λ sink. sink ≡ record { taken = []; room = room; calls = record { made = 0; failing = []; faults = 0 } }) }
    {
        Ok(MemorySink {
            taken: Vec::with_capacity(alloc, room)?,
            room,
            calls: Schedule::new(alloc),
        })
    }

    /// The write of this number, from 1 on, is to fail.
    pub fn fail_at(&mut self, call: u64) -> Result<(), AllocError>
        ensures ok { OnOk result (self.new ≡ record self.old
            { calls = record self.old.calls { failing = self.old.calls.failing ++ call ∷ [] } }) }
        ensures err { OnErr result (self.new ≡ self.old) }
    {
        self.calls.fail_at(call)
    }

    /// The bytes that it has taken.
    pub fn bytes(&self) -> &[u8]
        ensures { result.now ≡ self.now.taken }
    {
        &self.taken
    }
}

impl Sink for MemorySink {
    ghost taken = { λ s. Some s.taken };

    ghost faults = { λ s. s.calls.faults };

    ghost wrote = { memory_wrote };

    /// Takes the whole piece. It fails exactly where this call is to fail or the piece passes the room.
    fn write(&mut self, bytes: &[u8]) -> Result<usize, Failed>
        ensures fails { is_err result ≡ (is_due self.old.calls || nat_lt self.old.room (length self.old.taken + length bytes.now)) }
        ensures whole { IfOk result (λ n. n ≡ length bytes.now) }
        ensures ok { OnOk result (self.new ≡ record self.old { taken = self.old.taken ++ bytes.now; calls = passed self.old.calls }) }
        ensures err { OnErr result (self.new ≡ record self.old { calls = failed self.old.calls }) }
        ensures did { memory_wrote self.old (write_of bytes.now result) self.new }
        ensures never_falls { NeverFalls self.old.calls.faults self.new.calls.faults }
        ensures rose { OnErr result (Rose self.old.calls.faults self.new.calls.faults) }
    {
        let is_past_room = bytes.len() > self.room - self.taken.len();
        self.calls.call(is_past_room)?;
        // The room is reserved, so this doesn't allocate.
        let _ = self.taken.extend_from_slice(bytes);
        Ok(bytes.len())
    }
}
