//! Atoms in quoted form.
ghost use Rattle.std.specs.Prelude.{◌≡◌, ◌++◌, IfOk, true};
ghost use Rattle.std.specs.String.{string_bytes};
ghost use Rattle.std.specs.List.{flat_map, list_all};
ghost use Rattle.std.specs.Str.{chars, bytes_eq};
ghost use Rattle.pi_syntax.specs.Tokens as spec;
ghost use Rattle.pi_syntax.specs.PrintAtom as form;

use std::alloc::{AllocError, Global};

/// Writes an atom, in quotes where it has to stand in them.
#[tactic(auto, unfolding(pi_syntax::specs::PrintAtom::atom_text, pi_syntax::specs::PrintAtom::stands_bare))]
pub fn write_quoted(alloc: Global, name: &str, out: &mut String) -> Result<(), AllocError>
    ensures ok { IfOk result (λ _. string_bytes out.new ≡ string_bytes out.old ++ form.atom_text true name.now) }
{
    let text = characters(alloc, name)?;
    if name == "[]" || is_unquoted(&text) {
        return out.push_str(name);
    }
    out.push('\'')?;
    write_in_quotes(&text, out)?;
    out.push('\'')
}

fn characters(alloc: Global, text: &str) -> Result<Vec<char>, AllocError>
    ensures ok { IfOk result (λ found. found.items ≡ chars text.now) }
{
    text.chars().collect(alloc)
}

/// Whether characters are an atom as they stand.
#[tactic(auto, unfolding(pi_syntax::specs::PrintAtom::is_unquoted_atom))]
fn is_unquoted(text: &[char]) -> bool
    ensures { result ≡ form.is_unquoted_atom text.now }
{
    starts_atom(text) & has_name_parts(text) & !is_reserved(text)
}

fn has_name_parts(text: &[char]) -> bool
    ensures { result ≡ list_all spec.is_name_part text.now }
{
    text.iter().all(|c| is_name_part(*c))
}

fn starts_atom(text: &[char]) -> bool
    ensures { result ≡ spec.is_atom_start (spec.first text.now) }
{
    match text.first() {
        Some(c) => is_atom_start(*c),
        None => false,
    }
}

fn is_atom_start(c: char) -> bool
    ensures { result ≡ spec.is_atom_start c }
{
    c.is_ascii_lowercase() || (!c.is_ascii() && unicode_ident::is_xid_start(c))
}

fn is_name_part(c: char) -> bool
    ensures { result ≡ spec.is_name_part c }
{
    c.is_ascii_alphanumeric() || c == '_' || (!c.is_ascii() && unicode_ident::is_xid_continue(c))
}

#[tactic(auto, unfolding(pi_syntax::specs::Tokens::is_reserved))]
fn is_reserved(text: &[char]) -> bool
    ensures { result ≡ spec.is_reserved text.now }
{
    spells(text, "if")
        | spells(text, "then")
        | spells(text, "elseif")
        | spells(text, "else")
        | spells(text, "end")
        | spells(text, "foreach")
        | spells(text, "in")
        | spells(text, "notin")
        | spells(text, "while")
        | spells(text, "do")
        | spells(text, "not")
        | spells(text, "once")
        | spells(text, "div")
        | spells(text, "mod")
        | spells(text, "rem")
}

/// Whether the characters are those of an ASCII word.
fn spells(text: &[char], word: &str) -> bool
    ensures { result ≡ bytes_eq text.now word.now }
{
    let word = word.as_bytes();
    if text.len() != word.len() {
        return false;
    }
    for at in 0..text.len() {
        if text[at] != char::from(word[at]) {
            return false;
        }
    }
    true
}

/// Writes characters as they stand between quotes.
fn write_in_quotes(text: &[char], out: &mut String) -> Result<(), AllocError>
    ensures ok { IfOk result (λ _. string_bytes out.new ≡ string_bytes out.old ++ flat_map form.in_quotes text.now) }
{
    for c in text {
        match *c {
            '\\' => out.push_str("\\\\")?,
            '\'' => out.push_str("\\'")?,
            '\n' => out.push_str("\\n")?,
            '\t' => out.push_str("\\t")?,
            other => out.push(other)?,
        }
    }
    Ok(())
}
