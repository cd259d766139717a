//! The trait of what gives the input.
ghost use Rattle.std.specs.Prelude.{◌≡◌, ◌<◌, ◌≤◌, ℕ, List, [], Option, length, take, drop, IfOk, OnOk, OnErr};
ghost use Rattle.pi_outside.specs.Faults.{NeverFalls, Rose};
ghost use Rattle.pi_outside.specs.Given.{Gives, IsSpent};
ghost use Rattle.pi_outside.specs.Inputs.{SourceRead};
ghost use Rattle.pi_outside.specs.Reads.{given_by};

use crate::Failed;

/// What gives the input, piece by piece.
pub trait Source {
    /// The bytes that it has still to give, where that is told.
    ghost rest: { Self → Option (List ℕ) };

    /// How many faults it has counted, up to 2^64 - 1.
    ghost faults: { Self → ℕ };

    /// What a read may make of the source, as far as that is told.
    ghost has_read: { Self → SourceRead → Self → Type 0 };

    /// Writes the next bytes to the front of the slice and says how many; none in a slice that isn't empty is the
    /// input's end. The slice stays as it was behind them. `Failed` says that none was given and that a fault
    /// was counted, and leaves open what the slice holds.
    fn read(&mut self, into: &mut [u8]) -> Result<usize, Failed>
        ensures fits { IfOk result (λ n. n ≤ length into.old) }
        ensures gives { IfOk result (λ n. Gives (rest self.old) (take n into.new) (rest self.new)) }
        ensures end { IfOk result (λ n. n ≡ 0 → 0 < length into.old → IsSpent (rest self.new)) }
        ensures behind { IfOk result (λ n. drop n into.new ≡ drop n into.old) }
        ensures gives_nothing { OnErr result (Gives (rest self.old) [] (rest self.new)) }
        ensures did { has_read self.old (record { room = length into.old; gave = given_by result into.new }) self.new }

        ensures never_falls { NeverFalls (faults self.old) (faults self.new) }
        ensures rose { OnErr result (Rose (faults self.old) (faults self.new)) }
        ensures no_fault { OnOk result (faults self.new ≡ faults self.old) };
}
