//! An event that an agent waits for, as two words.
ghost use Rattle.std.specs.Prelude.{◌≡◌, ◌<◌, ◌^◌};
ghost use Rattle.pi_store_blocks.specs.Events.{watched, watch_number, watch_of, HasSlot};

use pi_constraints::{Ref, Watch};

/// The term in it.
pub fn watched(watch: Watch) -> Ref
    ensures { result ≡ watched watch }
{
    match watch {
        Watch::Ins(r) => r,
        Watch::Bound(r) => r,
        Watch::Dom(r, _) => r,
        Watch::DomAny(r, _) => r,
        Watch::Posted(r, _) => r,
    }
}

/// Its kind and its slot, as one number.
pub fn watch_number(watch: Watch) -> u64
    ensures is { result ≡ watch_number watch }
    ensures small { result < 2 ^ 36 }
    ensures slot { HasSlot watch }
{
    match watch {
        Watch::Ins(_) => 0,
        Watch::Bound(_) => 1,
        Watch::Dom(_, slot) => u64::from(slot) * 8 + 2,
        Watch::DomAny(_, slot) => u64::from(slot) * 8 + 3,
        Watch::Posted(_, slot) => u64::from(slot) * 8 + 4,
    }
}

/// The event of a term and such a number.
pub fn watch_of(r: Ref, number: u64) -> Watch
    ensures { result ≡ watch_of r number }
{
    let slot = (number / 8 % 4_294_967_296) as u32;
    match number % 8 {
        0 => Watch::Ins(r),
        1 => Watch::Bound(r),
        2 => Watch::Dom(r, slot),
        3 => Watch::DomAny(r, slot),
        _ => Watch::Posted(r, slot),
    }
}
