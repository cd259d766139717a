//! Numbers in words.
ghost use Rattle.std.specs.Prelude.{◌≡◌, ◌≤◌, IfSome};
ghost use Rattle.std.specs.Char.{is_ascii_digit};
ghost use Rattle.std.specs.List.{list_all};
ghost use Rattle.pi_top_words.specs.Words as spec;

const MOST_DIGITS: usize = 19;

/// The most places of the program of the mode `demo`.
const MOST_PLACES: u64 = 400;

/// The number that a word is, if it lies within these bounds.
pub fn number_within(least: u64, most: u64, word: &str) -> Option<u64>
    ensures value { result ≡ spec.number_within least most word.now }
    ensures within { IfSome result (λ value. (least ≤ value) × (value ≤ most)) }
{
    if !is_number(word) {
        return None;
    }
    let value = word.parse().ok()?;
    if least <= value && value <= most {
        Some(value)
    } else {
        None
    }
}

/// How many places the program of the mode `demo` has, by a word.
pub fn places_by(word: &str) -> Option<u32>
    ensures number { result ≡ spec.places_by word.now }
    ensures within { IfSome result (λ places. (1 ≤ places) × (places ≤ 400)) }
{
    let places = number_within(1, MOST_PLACES, word)?;
    Some(places as u32)
}

/// Whether a word is 1 to 19 ASCII digits.
fn is_number(word: &str) -> bool
    ensures { result ≡ spec.is_number word.now }
{
    !word.is_empty() && word.len() <= MOST_DIGITS && are_digits(word.as_bytes())
}

fn are_digits(bytes: &[u8]) -> bool
    ensures { result ≡ list_all is_ascii_digit bytes.now }
{
    bytes.iter().all(u8::is_ascii_digit)
}
