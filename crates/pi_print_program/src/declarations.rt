//! Declarations: names of libraries, and mode lists.
ghost use Rattle.std.specs.Prelude.{◌≡◌, ◌++◌, map, codes, IfOk};
ghost use Rattle.std.specs.String.{string_bytes};
ghost use Rattle.pi_print_program.specs.Texts.{parted, comma, name_text};
ghost use Rattle.pi_print_program.specs.Canonical as spec;

use crate::texts::write_name;
use pi_syntax::{Decl, Mode, Modes};
use pi_terms::Text;
use std::alloc::{AllocError, Global};

/// Writes the line of a declaration, where there is one.
pub(crate) fn write_declaration(
    alloc: Global,
    declaration: &Decl,
    out: &mut String,
) -> Result<(), AllocError>
    ensures { IfOk result (λ _. string_bytes out.new ≡ string_bytes out.old ++ spec.declaration_text declaration.now) }
{
    match declaration {
        Decl::Plain => Ok(()),
        Decl::Import(names) => {
            out.push_str("import ")?;
            write_names(alloc, names.as_slice(), out)?;
            out.push_str(".\n")?;
            Ok(())
        }
        Decl::Index(lists) => {
            out.push_str("index ")?;
            write_lists(lists.as_slice(), out)?;
            out.push_str("\n")?;
            Ok(())
        }
    }
}

fn write_names(alloc: Global, names: &[Text], out: &mut String) -> Result<(), AllocError>
    ensures { IfOk result (λ _. string_bytes out.new ≡ string_bytes out.old ++ parted comma (map name_text names.now)) }
{
    let mut before = "";
    for name in names {
        out.push_str(before)?;
        write_name(alloc, name.as_str(), out)?;
        before = ", ";
    }
    Ok(())
}

fn write_lists(lists: &[Modes], out: &mut String) -> Result<(), AllocError>
    ensures { IfOk result (λ _. string_bytes out.new ≡ string_bytes out.old ++ parted (codes " ") (map spec.modes_text lists.now)) }
{
    let mut before = "";
    for modes in lists {
        out.push_str(before)?;
        write_modes(modes.as_slice(), out)?;
        before = " ";
    }
    Ok(())
}

/// Writes a mode list.
fn write_modes(modes: &[Mode], out: &mut String) -> Result<(), AllocError>
    ensures { IfOk result (λ _. string_bytes out.new ≡ string_bytes out.old ++ spec.modes_text modes.now) }
{
    out.push_str("(")?;
    let mut before = "";
    for mode in modes {
        out.push_str(before)?;
        out.push_str(sign_of(*mode))?;
        before = ",";
    }
    out.push_str(")")?;
    Ok(())
}

fn sign_of(mode: Mode) -> &'static str
    ensures { result.now ≡ spec.mode_text mode }
{
    match mode {
        Mode::Plus => "+",
        Mode::Minus => "-",
    }
}
