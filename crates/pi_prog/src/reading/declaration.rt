//! How a part begins.
ghost use Rattle.std.specs.Prelude.{◌≡◌, ◌≤◌, ◌<◌, length, IfOk};
ghost use Rattle.pi_lex.specs.Kinds.{kinds, token_shown};
ghost use Rattle.pi_syntax.specs.Tokens.{Atom};
ghost use Rattle.pi_expr.specs.Faults.{stretch};
ghost use Rattle.pi_prog.specs.Pieces.{ShowsWord, ShowsImport, ShowsIndex, ShowsOpening};

mod imports;
mod modes;

use crate::reading::declaration::imports::imported;
use crate::reading::declaration::modes::mode_lists;
use pi_lex::{TokenKind, Tokens};
use pi_syntax::{ModeLists, Names};
use std::alloc::{AllocError, Global};

/// How a part begins.
#[derive(Drop)]
pub(crate) enum PartOpening {
    /// With no declaration.
    Undeclared,
    /// With an import of these libraries, which is all of it.
    Importing(Names),
    /// With mode lists, and where the clause behind them begins.
    Indexing(ModeLists, usize),
    /// With a declaration of no form.
    Misdeclared,
}

/// The word that begins a declaration.
#[derive(Clone, Copy)]
pub(crate) enum DeclarationWord {
    Import,
    Index,
    /// One whose declarations have no form here.
    Other,
    Nothing,
}

fn word_of(token: TokenKind<'_>) -> DeclarationWord
    ensures { ShowsWord result (token_shown token.entry) }
{
    match token {
        TokenKind::Atom(name) => word_named(name),
        TokenKind::Var(_) => DeclarationWord::Nothing,
        TokenKind::Word(_) => DeclarationWord::Nothing,
        TokenKind::Int(_) => DeclarationWord::Nothing,
        TokenKind::Str(_) => DeclarationWord::Nothing,
        TokenKind::Sign(_) => DeclarationWord::Nothing,
        TokenKind::End => DeclarationWord::Nothing,
    }
}

fn word_named(name: &str) -> DeclarationWord
    ensures { ShowsWord result (Atom name.now) }
{
    if name == "import" {
        return DeclarationWord::Import;
    }
    if name == "index" {
        return DeclarationWord::Index;
    }
    let has_no_form = (name == "table") | (name == "module") | (name == "private");
    if has_no_form {
        DeclarationWord::Other
    } else {
        DeclarationWord::Nothing
    }
}

/// How the part from one place up to another begins.
pub(crate) fn opening(
    alloc: Global,
    tokens: &Tokens,
    from: usize,
    to: usize,
) -> Result<PartOpening, AllocError>
    requires ordered { from ≤ to }
    requires within { to ≤ length tokens.now }
    ensures { IfOk result (ShowsOpening (kinds tokens.now) from to) }
{
    if from >= to {
        return Ok(PartOpening::Undeclared);
    }
    let first = tokens.kind(from);
    match word_of(first) {
        DeclarationWord::Import => {
            let opening = import(alloc, tokens, from + 1, to)?;
            Ok(opening)
        }
        DeclarationWord::Index => {
            let opening = index(alloc, tokens, from + 1, to)?;
            Ok(opening)
        }
        DeclarationWord::Other => Ok(PartOpening::Misdeclared),
        DeclarationWord::Nothing => Ok(PartOpening::Undeclared),
    }
}

/// What stands behind `import`.
fn import(alloc: Global, tokens: &Tokens, from: usize, to: usize) -> Result<PartOpening, AllocError>
    requires ordered { from ≤ to }
    requires within { to ≤ length tokens.now }
    ensures { IfOk result (ShowsImport (stretch (kinds tokens.now) from to)) }
{
    match imported(alloc, tokens, from, to)? {
        Some(names) => Ok(PartOpening::Importing(names)),
        None => Ok(PartOpening::Misdeclared),
    }
}

/// What stands behind `index`.
fn index(alloc: Global, tokens: &Tokens, from: usize, to: usize) -> Result<PartOpening, AllocError>
    requires ordered { from ≤ to }
    requires within { to ≤ length tokens.now }
    ensures { IfOk result (ShowsIndex (kinds tokens.now) from to) }
{
    let found = mode_lists(alloc, tokens, from, to)?;
    if found.lists.len() == 0 {
        Ok(PartOpening::Misdeclared)
    } else {
        Ok(PartOpening::Indexing(found.lists, found.end))
    }
}
