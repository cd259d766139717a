//! The trait of what takes the output.
ghost use Rattle.std.specs.Prelude.{◌≡◌, ◌<◌, ◌≤◌, ℕ, List, [], Option, length, take, IfOk, OnOk, OnErr};
ghost use Rattle.pi_outside.specs.Faults.{NeverFalls, Rose};
ghost use Rattle.pi_outside.specs.Taken.{Takes};
ghost use Rattle.pi_outside.specs.Writes.{SinkWrite, write_of};

use crate::Failed;

/// What takes the output, piece by piece.
pub trait Sink {
    /// The bytes that it has taken so far, where that is told.
    ghost taken: { Self → Option (List ℕ) };

    /// How many faults it has counted, up to 2^64 - 1.
    ghost faults: { Self → ℕ };

    /// What a write may make of the sink, as far as that is told.
    ghost wrote: { Self → SinkWrite → Self → Type 0 };

    /// Takes the first bytes of a piece and says how many, one at least of a piece that isn't empty.
    /// `Failed` says that none was taken and that a fault was counted.
    fn write(&mut self, bytes: &[u8]) -> Result<usize, Failed>
        ensures fits { IfOk result (λ n. n ≤ length bytes.now) }
        ensures moves { IfOk result (λ n. 0 < length bytes.now → 0 < n) }
        ensures takes { IfOk result (λ n. Takes (taken self.old) (take n bytes.now) (taken self.new)) }
        ensures takes_nothing { OnErr result (Takes (taken self.old) [] (taken self.new)) }
        ensures did { wrote self.old (write_of bytes.now result) self.new }

        ensures never_falls { NeverFalls (faults self.old) (faults self.new) }
        ensures rose { OnErr result (Rose (faults self.old) (faults self.new)) }
        ensures no_fault { OnOk result (faults self.new ≡ faults self.old) };
}
