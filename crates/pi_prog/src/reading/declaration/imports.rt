//! The names of libraries behind `import`.
ghost use Rattle.std.specs.Prelude.{◌≡◌, ◌≤◌, length, IfOk, MatchOption, Some, None};
ghost use Rattle.pi_lex.specs.Kinds.{kinds, token_shown};
ghost use Rattle.pi_syntax.specs.Tokens.{is_one_of};
ghost use Rattle.pi_expr.specs.Faults.{stretch};
ghost use Rattle.pi_prog_clauses.specs.Declaration as declaration;
ghost use Rattle.pi_prog.specs.Pieces.{library_of};

use crate::reading::stretch::is_sign;
use pi_lex::{TokenKind, Tokens};
use pi_syntax::Names;
use pi_terms::Text;
use std::alloc::{AllocError, Global};

/// The name of a library, where the token is one.
fn library(token: TokenKind<'_>) -> Option<&str>
    ensures { MatchOption result (library_of (token_shown token.entry) ≡ None)
        (λ name. library_of (token_shown token.entry) ≡ Some name.now) }
{
    match token {
        TokenKind::Atom(name) => { if is_library(name) { Some(name) } else { None } }
        TokenKind::Var(_) => None,
        TokenKind::Word(_) => None,
        TokenKind::Int(_) => None,
        TokenKind::Str(_) => None,
        TokenKind::Sign(_) => None,
        TokenKind::End => None,
    }
}

/// Whether a library has this name.
fn is_library(name: &str) -> bool
    ensures { result ≡ is_one_of declaration.libraries name.now }
{
    (name == "basic") | (name == "cp") | (name == "planner") | (name == "sys")
}

/// The names from one place up to another, where they are all names of libraries with commas between them.
pub(crate) fn imported(
    alloc: Global,
    tokens: &Tokens,
    from: usize,
    to: usize,
) -> Result<Option<Names>, AllocError>
    requires ordered { from ≤ to }
    requires within { to ≤ length tokens.now }
    ensures { IfOk result (λ names. names ≡ declaration.imported (stretch (kinds tokens.now) from to)) }
{
    let mut names = Names::new(alloc)?;
    let mut at = from;
    'names: while at < to {
        let Some(name) = library(tokens.kind(at)) else {
            return Ok(None);
        };
        let name = Text::new(alloc, name)?;
        names.push(name)?;
        at += 1;
        if at == to {
            return Ok(Some(names));
        }
        let comma = tokens.kind(at);
        if !is_sign(comma, ",") {
            return Ok(None);
        }
        at += 1;
    }
    Ok(None)
}
