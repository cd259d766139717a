//! The names of a part's variables.
ghost use Rattle.std.specs.Prelude.{◌≡◌, ◌≤◌, List, ℕ, length, IfOk, OnOk};
ghost use Rattle.pi_lex.specs.Kinds.{kinds, token_shown};
ghost use Rattle.pi_expr.specs.Faults.{stretch};
ghost use Rattle.pi_prog.specs.Pieces.{HoldsNames, named_before};
ghost use Rattle.pi_prog_clauses.specs.Reading as reading;
ghost use Rattle.pi_prog_clauses.specs.Verdict as verdict;

use crate::MAX_NAMES;
use pi_lex::{TokenKind, Tokens};
use std::alloc::{AllocError, Global};
use std::collections::BTreeSet;

/// Whether the variables from one place up to another have more than 4,096 different names. All `_` are one name.
pub(crate) fn has_too_many_names(
    alloc: Global,
    tokens: &Tokens,
    from: usize,
    to: usize,
) -> Result<bool, AllocError>
    requires ordered { from ≤ to }
    requires within { to ≤ length tokens.now }
    ensures { IfOk result (λ found. found ≡ verdict.has_too_many_names (reading.variable_names (stretch (kinds tokens.now) from to))) }
{
    let mut names = BTreeSet::new(alloc);
    let mut at = to;
    'names: while at > from {
        at -= 1;
        let token = tokens.kind(at);
        add_name(&mut names, token)?;
        if names.len() > MAX_NAMES {
            return Ok(true);
        }
    }
    Ok(false)
}

/// Adds the name that the token is, where it is a variable.
fn add_name<'a>(names: &mut BTreeSet<&'a str>, token: TokenKind<'a>) -> Result<(), AllocError>
    ensures { OnOk result ((ns : List (List ℕ)) → HoldsNames names.old.keys ns →
        HoldsNames names.new.keys (named_before (token_shown token.entry) ns)) }
{
    match token {
        TokenKind::Var(name) => {
            names.insert(name)?;
            Ok(())
        }
        TokenKind::Atom(_) => Ok(()),
        TokenKind::Word(_) => Ok(()),
        TokenKind::Int(_) => Ok(()),
        TokenKind::Str(_) => Ok(()),
        TokenKind::Sign(_) => Ok(()),
        TokenKind::End => Ok(()),
    }
}
