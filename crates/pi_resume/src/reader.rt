//! Texts that are read as paths.
ghost use Rattle.std.specs.Prelude.{◌≡◌, ◌↔◌, ◌++◌, ◌∷◌, ℕ, List, IfOk, IsTrue, All, Err};
ghost use Rattle.pi_resume.specs.Token.{IsToken, IsNumber};
ghost use Rattle.pi_resume.specs.Scanned.{MayName, scanned, scanned_on, with_digit as digit_put, without_feed};
ghost use Rattle.pi_resume.specs.declared.fault.PathFault.TheVariants.{BadPath};

use crate::Path;
use crate::fault::PathFault;
use crate::writer::path_text;
use std::alloc::{AllocError, Global};

/// How many numbers a path of a token has at most.
const MOST_NUMBERS: usize = 524_288;

/// The path that a text names. `BadPath` comes exactly where the text is no token, and `Memory` is want of memory. (Own.)
pub fn read_path(alloc: Global, text: &[u8]) -> Result<Path, PathFault>
    ensures read { IfOk result (λ path. IsToken text.now path) }
    ensures bad { result ≡ Err BadPath → (path : List ℕ) → IsToken text.now path → ⊥ }
{
    let body = without_line_feed(text);
    let Ok(path) = numbers_in(alloc, body) else {
        return Err(PathFault::Memory);
    };
    if !may_name(path.as_slice()) {
        return Err(PathFault::BadPath);
    }
    let Ok(written) = path_text(alloc, &path) else {
        return Err(PathFault::Memory);
    };
    if written.as_str().as_bytes() == body {
        Ok(path)
    } else {
        Err(PathFault::BadPath)
    }
}

/// The text without a line feed at its end.
fn without_line_feed(text: &[u8]) -> &[u8]
    ensures { result.now ≡ without_feed text.now }
{
    let count = text.len();
    if count > 0 && text[count - 1] == b'\n' {
        &text[..count - 1]
    } else {
        text
    }
}

/// Whether there are no more numbers than a token may have, each above 0.
fn may_name(numbers: &[u64]) -> bool
    ensures { IsTrue result ↔ MayName numbers.now }
{
    numbers.len() <= MOST_NUMBERS && are_numbers(numbers)
}

/// Whether each is above 0.
fn are_numbers(numbers: &[u64]) -> bool
    ensures { IsTrue result ↔ All IsNumber numbers.now }
{
    numbers.iter().all(|number| *number > 0)
}

/// The numbers between points, behind the first byte, whatever the bytes are.
fn numbers_in(alloc: Global, text: &[u8]) -> Result<Path, AllocError>
    ensures { IfOk result (λ path. path ≡ scanned text.now) }
{
    if text.len() < 2 {
        return Ok(Path::new(alloc));
    }
    let path = numbers_between(alloc, &text[1..])?;
    Ok(path)
}

/// The numbers between points.
fn numbers_between(alloc: Global, text: &[u8]) -> Result<Path, AllocError>
    ensures { IfOk result (λ path. path ≡ scanned_on text.now 0) }
{
    let mut path = Path::new(alloc);
    let mut value = 0;
    for byte in text {
        value = go_on(&mut path, value, *byte)?;
    }
    path.push(value)?;
    Ok(path)
}

/// A byte behind so much of a number: a point ends it, and any other goes on with it.
fn go_on(path: &mut Path, value: u64, byte: u8) -> Result<u64, AllocError>
    ensures { IfOk result (λ next. (rest : List ℕ) → path.new ++ scanned_on rest next ≡ path.old ++ scanned_on (byte ∷ rest) value) }
{
    if byte == b'.' {
        path.push(value)?;
        Ok(0)
    } else {
        Ok(with_digit(value, byte))
    }
}

/// A number with one digit more at its end; the largest one where that is more.
fn with_digit(value: u64, byte: u8) -> u64
    ensures { result ≡ digit_put value byte }
{
    let digit = u64::from(byte.saturating_sub(b'0'));
    if value <= (u64::MAX - digit) / 10 {
        value * 10 + digit
    } else {
        u64::MAX
    }
}
