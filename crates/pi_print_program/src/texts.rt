//! Names, integers and texts.
ghost use Rattle.std.specs.Prelude.{◌≡◌, ◌++◌, IfOk};
ghost use Rattle.std.specs.List.{flat_map};
ghost use Rattle.std.specs.Str.{chars};
ghost use Rattle.std.specs.String.{string_bytes};
ghost use Rattle.pi_print_program.specs.Texts.{name_text, integer_text, string_text, in_double_quotes};

use pi_print_terms::term_text;
use pi_terms::Term;
use std::alloc::{AllocError, Global};

/// Writes the name of an atom or of a call.
#[tactic(auto, unfolding(pi_syntax::specs::PrintTerm::written))]
pub(crate) fn write_name(alloc: Global, name: &str, out: &mut String) -> Result<(), AllocError>
    ensures ok { IfOk result (λ _. string_bytes out.new ≡ string_bytes out.old ++ name_text name.now) }
{
    let atom = Term::atom(alloc, name)?;
    let text = term_text(alloc, &atom, true)?;
    out.push_str(text.as_str())
}

/// Writes an integer: a negative one in parentheses.
#[tactic(auto, unfolding(crate::specs::Texts::integer_text))]
pub(crate) fn write_integer(n: i128, out: &mut String) -> Result<(), AllocError>
    ensures ok { IfOk result (λ _. string_bytes out.new ≡ string_bytes out.old ++ integer_text n) }
{
    if n < 0 {
        out.push('(')?;
        write!(out, "{n}")?;
        return out.push(')');
    }
    write!(out, "{n}")
}

/// Writes a text in double quotes.
#[tactic(auto, unfolding(crate::specs::Texts::string_text))]
pub(crate) fn write_string(alloc: Global, text: &str, out: &mut String) -> Result<(), AllocError>
    ensures ok { IfOk result (λ _. string_bytes out.new ≡ string_bytes out.old ++ string_text text.now) }
{
    let characters = characters(alloc, text)?;
    out.push('"')?;
    write_characters(&characters, out)?;
    out.push('"')
}

fn characters(alloc: Global, text: &str) -> Result<Vec<char>, AllocError>
    ensures ok { IfOk result (λ found. found.items ≡ chars text.now) }
{
    text.chars().collect(alloc)
}

/// Writes characters as they stand between double quotes.
fn write_characters(text: &[char], out: &mut String) -> Result<(), AllocError>
    ensures ok { IfOk result (λ _. string_bytes out.new ≡ string_bytes out.old ++ flat_map in_double_quotes text.now) }
{
    for c in text {
        match *c {
            '\\' => out.push_str("\\\\")?,
            '"' => out.push_str("\\\"")?,
            '\n' => out.push_str("\\n")?,
            '\t' => out.push_str("\\t")?,
            other => out.push(other)?,
        }
    }
    Ok(())
}
