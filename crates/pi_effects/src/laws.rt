//! Laws of the effects.
//! What the definitions of the values mean, over all whole numbers. Each law is the contract of a
//! function that does nothing.
ghost use Rattle.pi_effects.specs.Items.{ItemsGoByRoot, ItemsGoByValue};
ghost use Rattle.pi_effects.specs.Sorting.{SortingAscends, SortingIsStable, SortingKeepsItems};
ghost use Rattle.pi_effects.specs.BuiltIns.{FunctionsAreListed, FunctionsOnlyMakeVariables, PredicatesAreListed, PredicatesOnlyUnify};
ghost use Rattle.std.specs.Prelude.{◌≡◌, ◌≢◌, ℕ, ◌+◌, ◌-◌, ◌%◌, ◌^◌, min, max, ℤ, pos, ◌+ℤ◌, ◌-ℤ◌, ◌*ℤ◌, neg_ℤ, ◌≤ℤ◌};
ghost use Rattle.pi_effects.specs.Bits.{bit_of, complement, bits_and, bits_or, bits_xor};
ghost use Rattle.pi_effects.specs.Power.{power};
ghost use Rattle.pi_effects.specs.Quotients.{quotient, floor_quotient, ceiling_quotient, IsRest, IsRoundedDown, IsRoundedUp};

/// Just the names in the tables do something, each with its numbers of arguments, whatever the arguments and the state are.
pub fn built_ins_are_listed()
    ensures functions { FunctionsAreListed }
    ensures predicates { PredicatesAreListed }
{}

/// A function changes nothing in a state but for new variables, and a predicate nothing but by unifying two terms.
pub fn built_ins_keep_states()
    ensures functions { FunctionsOnlyMakeVariables }
    ensures predicates { PredicatesOnlyUnify }
{}

/// The items of a list are as its root says, cell by cell, and their values are the items of the list's value.
pub fn lists_have_items()
    ensures by_root { ItemsGoByRoot }
    ensures by_value { ItemsGoByValue }
{}

/// Sorted items ascend by the standard order, are the items that there were, and stay in their order where they have one value.
pub fn sorting_sorts()
    ensures ascends { SortingAscends }
    ensures items { SortingKeepsItems }
    ensures stable { SortingIsStable }
{}

/// Each quotient is rounded as its name says: down to the greatest whole number that isn't above
/// the exact quotient, up to the least that isn't below it, and towards zero down where dividend
/// and divisor have one sign, and up where they don't.
pub fn quotients()
    ensures down { (a b : ℤ) → IsRoundedDown a b (floor_quotient a b) }
    ensures up { (a b : ℤ) → IsRoundedUp a b (ceiling_quotient a b) }
    ensures one_sign { (a b : ℤ) → b ≢ pos 0 → pos 0 ≤ℤ (a *ℤ b) → quotient a b ≡ floor_quotient a b }
    ensures opposite { (a b : ℤ) → b ≢ pos 0 → (a *ℤ b) ≤ℤ pos 0 → quotient a b ≡ ceiling_quotient a b }
{}

/// What a quotient leaves is nearer to 0 than the divisor. `mod` leaves 0 or the divisor's sign,
/// `rem` 0 or the dividend's.
pub fn rests()
    ensures modulo { (a b : ℤ) → b ≢ pos 0 → IsRest b b (a -ℤ floor_quotient a b *ℤ b) }
    ensures remainder { (a b : ℤ) → b ≢ pos 0 → IsRest b a (a -ℤ quotient a b *ℤ b) }
{}

/// A power is as many factors as its exponent says.
pub fn powers()
    ensures zero { (a : ℤ) → power a 0 ≡ pos 1 }
    ensures sum { (a : ℤ) (m n : ℕ) → power a (m + n) ≡ power a m *ℤ power a n }
    ensures one { (a : ℤ) → power a 1 ≡ a }
{}

/// Bit `i` is the lowest binary digit of the quotient by `2^i`, rounded down: two's complement. A
/// number is known by its bits, and each operation on bits computes bit `i` from bits `i` alone.
pub fn bits()
    ensures digit { (a : ℤ) (i : ℕ) →
        let high = floor_quotient a (pos (2 ^ i)) in
        pos (bit_of a i) ≡ high -ℤ floor_quotient high (pos 2) *ℤ pos 2 }
    ensures known { (a b : ℤ) → ((i : ℕ) → bit_of a i ≡ bit_of b i) → a ≡ b }
    ensures and { (a b : ℤ) (i : ℕ) → bit_of (bits_and a b) i ≡ min (bit_of a i) (bit_of b i) }
    ensures or { (a b : ℤ) (i : ℕ) → bit_of (bits_or a b) i ≡ max (bit_of a i) (bit_of b i) }
    ensures xor { (a b : ℤ) (i : ℕ) → bit_of (bits_xor a b) i ≡ (bit_of a i + bit_of b i) % 2 }
    ensures not { (a : ℤ) (i : ℕ) → bit_of (complement a) i ≡ 1 - bit_of a i }
    ensures below { (a : ℤ) → complement a ≡ neg_ℤ a -ℤ pos 1 }
{}
