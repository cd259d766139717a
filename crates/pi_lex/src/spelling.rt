//! Spellings in a buffer, each with a count behind it.
ghost use Rattle.std.specs.Prelude.{◌≡◌, ◌+◌, ◌*◌, ◌<◌, ◌≤◌, ◌++◌, length, string_bytes, string_len, encode_utf8_all, IsTrue, IfSome, OnOk, is_some};
ghost use Rattle.pi_lex.specs.Spans.{spelled_at, IsCounted};

use std::alloc::AllocError;

/// How many seats there are for places of spellings.
pub(crate) const SEATS: usize = 256;

/// The seat of a spelling, by its ends and its length. With these factors no two characters of ASCII share one.
pub(crate) fn seat_of(spelling: &[char]) -> usize
    requires { 0 < length spelling.now }
    ensures { result < 256 }
{
    let len = spelling.len();
    let first = spelling[0] as usize;
    let last = spelling[len - 1] as usize;
    (first % 256 * 7 + last % 256 * 46 + len % 256 * 113) % SEATS
}

/// Whether the byte at this place counts the bytes of this spelling in front of it.
pub(crate) fn stands_at(buffer: &str, place: usize, spelling: &[char]) -> bool
    ensures counted { IsTrue result → IsCounted buffer.now place }
    ensures spelled { IsTrue result → spelled_at buffer.now place ≡ encode_utf8_all spelling.now }
    ensures found { IsCounted buffer.now place → spelled_at buffer.now place ≡ encode_utf8_all spelling.now → IsTrue result }
{
    match counted_at(buffer, place) {
        Some(found) => is_spelled(found, spelling),
        None => false,
    }
}

/// So many bytes in front of this place as the byte there says, where these are whole characters.
fn counted_at(buffer: &str, place: usize) -> Option<&str>
    ensures some { IfSome result (λ found. IsCounted buffer.now place × (found.now ≡ spelled_at buffer.now place)) }
    ensures found { IsCounted buffer.now place → IsTrue (is_some result) }
{
    if place >= buffer.len() {
        return None;
    }
    let len = usize::from(buffer.as_bytes()[place]);
    if len > place {
        return None;
    }
    let from = place - len;
    if buffer.is_char_boundary(from) && buffer.is_char_boundary(place) {
        Some(&buffer[from..place])
    } else {
        None
    }
}

/// Whether these are the characters of the text.
fn is_spelled(text: &str, spelling: &[char]) -> bool
    ensures same { IsTrue result → text.now ≡ encode_utf8_all spelling.now }
    ensures found { text.now ≡ encode_utf8_all spelling.now → IsTrue result }
{
    let mut rest = text.chars();
    for c in spelling {
        let Some(found) = rest.next() else {
            return false;
        };
        if found != *c {
            return false;
        }
    }
    rest.next().is_none()
}

/// Appends the characters.
#[tactic(auto, using(crate::proofs::StoreLemmas::encode_short))]
pub(crate) fn push_all(buffer: &mut String, spelling: &[char]) -> Result<(), AllocError>
    ensures bytes { OnOk result (string_bytes buffer.new ≡ string_bytes buffer.old ++ encode_utf8_all spelling.now) }
    ensures grows { OnOk result (string_len buffer.new ≤ string_len buffer.old + 4 * length spelling.now) }
{
    for c in spelling {
        buffer.push(*c)?;
    }
    Ok(())
}
