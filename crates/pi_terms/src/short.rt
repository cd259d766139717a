//! Texts of a few bytes, in place.
ghost use Rattle.std.specs.Prelude.{◌≡◌, ◌≤◌, length};

use std::marker::Model;
use std::str;

/// The most bytes of a text that stands in place: with them a text and its length take 15 bytes.
pub(crate) const MOST_BYTES: usize = 14;

/// A text of a few bytes. A contract sees its bytes in UTF-8.
#[derive(Drop)]
pub(crate) struct Short {
    bytes: [u8; MOST_BYTES],
    len: u8,
}

impl Model for Short {
    ghost use Rattle.std.specs.Prelude.{◌≡◌, ◌≤◌, List, ℕ, length, take, IsUtf8};

    ghost Value = { List ℕ };

    ghost view = { λ s. take s.len s.bytes };

    ghost invariant = { λ s. (s.len ≤ 14) × (length s.bytes ≡ 14) × ∥ IsUtf8 (take s.len s.bytes) ∥₁ };
}

impl Short {
    /// A copy of a text.
    pub(crate) fn of(text: &str) -> Short
        requires { length text.now ≤ 14 }
        ensures { result ≡ text.now }
    {
        let len = text.len();
        let mut bytes = [0; MOST_BYTES];
        bytes[..len].copy_from_slice(text.as_bytes());
        Short {
            bytes,
            len: len as u8,
        }
    }

    pub(crate) fn as_str(&self) -> &str
        ensures { result.now ≡ self.now }
    {
        unsafe { str::from_utf8_unchecked(&self.bytes[..self.len as usize]) }
    }
}
