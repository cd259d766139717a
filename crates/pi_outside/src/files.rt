//! The trait of files by their names.
ghost use Rattle.std.specs.Prelude.{◌≡◌, ◌<◌, ◌≤◌, ℕ, Option, length, take, drop, IfOk, OnOk, OnErr};
ghost use Rattle.pi_outside.specs.Faults.{NeverFalls, Rose};
ghost use Rattle.pi_outside.specs.Held.{Holding, Keeps, IsThere, HasPiece, EndsBy};
ghost use Rattle.pi_outside.specs.Reads.{FileRead, given_by};

use crate::Failed;

/// Files by their names, to be read from any place.
pub trait Files {
    /// For each name the bytes of its file, where that is told.
    ghost held: { Self → Option Holding };

    /// How many faults they have counted, up to 2^64 - 1.
    ghost faults: { Self → ℕ };

    /// What a read may make of the files, as far as that is told.
    ghost has_read: { Self → FileRead → Self → Type 0 };

    /// Copies bytes of the file of this name, from the byte `at` on, to the front of the slice and says how many;
    /// none in a slice that isn't empty is the file's end. The slice stays as it was behind them.
    /// `Failed`, which an absent file gives too, says that a fault was counted, and leaves open what the slice
    /// holds.
    fn read_at(&mut self, name: &str, at: u64, into: &mut [u8]) -> Result<usize, Failed>
        ensures fits { IfOk result (λ n. n ≤ length into.old) }
        ensures there { OnOk result (IsThere (held self.new) name.now) }
        ensures piece { IfOk result (λ n. HasPiece (held self.new) name.now at (take n into.new)) }
        ensures end { IfOk result (λ n. n ≡ 0 → 0 < length into.old → EndsBy (held self.new) name.now at) }
        ensures behind { IfOk result (λ n. drop n into.new ≡ drop n into.old) }
        ensures keeps { Keeps (held self.old) (held self.new) }
        ensures did { has_read self.old (record {
          name = name.now;
          from = at;
          room = length into.old;
          gave = given_by result into.new;
        }) self.new }

        ensures never_falls { NeverFalls (faults self.old) (faults self.new) }
        ensures rose { OnErr result (Rose (faults self.old) (faults self.new)) }
        ensures no_fault { OnOk result (faults self.new ≡ faults self.old) };
}
