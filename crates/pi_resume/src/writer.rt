//! The text of a path.
ghost use Rattle.std.specs.Prelude.{◌≡◌, ◌++◌, IfOk};
ghost use Rattle.std.specs.String.{string_bytes};
ghost use Rattle.std.specs.Fmt.{decimal};
ghost use Rattle.pi_resume.specs.Token.{token, later_numbers};

use crate::Path;
use pi_terms::Text;
use std::alloc::{AllocError, Global};

/// The token of a path: `p`, and its numbers in decimal, parted by points. Its only error is want of memory. (Own.)
pub fn path_text(alloc: Global, path: &Path) -> Result<Text, AllocError>
    ensures { IfOk result (λ made. made ≡ token path.now) }
{
    let numbers = path.as_slice();
    let mut text = String::from_str(alloc, "p")?;
    if !numbers.is_empty() {
        write_number(&mut text, "", numbers[0])?;
        write_later(&mut text, &numbers[1..])?;
    }
    Text::from_string(alloc, text)
}

/// Numbers, each behind a point.
fn write_later(text: &mut String, numbers: &[u64]) -> Result<(), AllocError>
    ensures { IfOk result (λ _. string_bytes text.new ≡ string_bytes text.old ++ later_numbers numbers.now) }
{
    for number in numbers {
        let number = *number;
        write_number(text, ".", number)?;
    }
    Ok(())
}

fn write_number(text: &mut String, before: &str, number: u64) -> Result<(), AllocError>
    ensures { IfOk result (λ _. string_bytes text.new ≡ string_bytes text.old ++ (before.now ++ decimal number)) }
{
    write!(text, "{before}{number}")
}
