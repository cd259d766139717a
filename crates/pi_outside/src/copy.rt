//! Bytes into the front of a slice.
ghost use Rattle.std.specs.Prelude.{◌≡◌, ◌++◌, ◌-◌, length, take, drop, min};

/// Copies as many bytes as there are and have room, and says how many.
pub(crate) fn copy_front(from: &[u8], into: &mut [u8]) -> usize
    ensures count { result ≡ min (length from.now) (length into.old) }
    ensures copied { into.new ≡ take result from.now ++ drop result into.old }
{
    let count = from.len().min(into.len());
    into[..count].copy_from_slice(&from[..count]);
    count
}

/// The same from the byte `at` on.
pub(crate) fn copy_from(from: &[u8], at: u64, into: &mut [u8]) -> usize
    ensures count { result ≡ min (length from.now - at) (length into.old) }
    ensures copied { into.new ≡ take result (drop at from.now) ++ drop result into.old }
{
    let start = from.len().min(at as usize);
    copy_front(&from[start..], into)
}
