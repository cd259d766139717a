//! The canonical text of a program. The forms are those of A User's Guide to Picat; which of them is the canonical one is own.
#![tactic(auto)]

ghost use Rattle.std.specs.Prelude.{◌≡◌, IfOk};
ghost use Rattle.pi_syntax.specs.ProgramTree.{source_tree};
ghost use Rattle.pi_print_program.specs.Canonical.{canonical_text};

mod clauses;
mod declarations;
mod expressions;
pub mod laws;
mod signs;
mod texts;

use clauses::write_part;
use pi_syntax::Program;
use pi_terms::Text;
use std::alloc::{AllocError, Global};

/// The canonical text of a program: a line for each part, and one more for the `index` before a fact.
pub fn program_text(alloc: Global, program: &Program) -> Result<Text, AllocError>
    ensures ok { IfOk result (λ text. text ≡ canonical_text (source_tree program.now)) }
{
    let mut out = String::new(alloc);
    for part in program.parts.as_slice() {
        write_part(alloc, part, &mut out)?;
    }
    let text = Text::from_string(alloc, out)?;
    Ok(text)
}
