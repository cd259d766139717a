//! Mode lists behind `index`.
ghost use Rattle.std.specs.Prelude.{◌≡◌, ◌≤◌, length, IfOk};
ghost use Rattle.pi_syntax.specs.Tokens.{Sign};
ghost use Rattle.pi_lex.specs.Kinds.{kinds, token_shown};
ghost use Rattle.pi_expr.specs.Faults.{stretch};
ghost use Rattle.pi_prog_clauses.specs.Declaration as declaration;
ghost use Rattle.pi_prog.specs.Pieces.{ShowsModes, ShowsModeList, IsListed};

use crate::reading::stretch::is_sign;
use pi_lex::{TokenKind, Tokens};
use pi_syntax::{Mode, ModeLists, Modes};
use std::alloc::{AllocError, Global};

/// Modes and the place behind them, or that there are none.
#[derive(Drop)]
pub(crate) enum FoundModes {
    Found(Modes, usize),
    Nothing,
}

/// Mode lists and the place behind them.
#[derive(Drop)]
pub(crate) struct FoundLists {
    pub(crate) lists: ModeLists,
    pub(crate) end: usize,
}

fn mode_of(token: TokenKind<'_>) -> Option<Mode>
    ensures { result ≡ declaration.mode_of (token_shown token.entry) }
{
    match token {
        TokenKind::Sign(sign) => mode_named(sign),
        TokenKind::Var(_) => None,
        TokenKind::Atom(_) => None,
        TokenKind::Word(_) => None,
        TokenKind::Int(_) => None,
        TokenKind::Str(_) => None,
        TokenKind::End => None,
    }
}

fn mode_named(sign: &str) -> Option<Mode>
    ensures { result ≡ declaration.mode_of (Sign sign.now) }
{
    if sign == "+" {
        Some(Mode::Plus)
    } else if sign == "-" {
        Some(Mode::Minus)
    } else {
        None
    }
}

/// The modes from a place on, up to their closing parenthesis.
fn modes(alloc: Global, tokens: &Tokens, from: usize, to: usize) -> Result<FoundModes, AllocError>
    requires ordered { from ≤ to }
    requires within { to ≤ length tokens.now }
    ensures { IfOk result (ShowsModes (kinds tokens.now) from to) }
{
    let mut modes = Modes::new(alloc);
    let mut at = from;
    'modes: while to - at >= 2 {
        let Some(mode) = mode_of(tokens.kind(at)) else {
            return Ok(FoundModes::Nothing);
        };
        modes.push(mode)?;
        let behind = tokens.kind(at + 1);
        at += 2;
        if is_sign(behind, ")") {
            return Ok(FoundModes::Found(modes, at));
        }
        if !is_sign(behind, ",") {
            return Ok(FoundModes::Nothing);
        }
    }
    Ok(FoundModes::Nothing)
}

/// The mode list that begins at a place.
fn mode_list(
    alloc: Global,
    tokens: &Tokens,
    from: usize,
    to: usize,
) -> Result<FoundModes, AllocError>
    requires ordered { from ≤ to }
    requires within { to ≤ length tokens.now }
    ensures { IfOk result (ShowsModeList (kinds tokens.now) from to) }
{
    if from >= to {
        return Ok(FoundModes::Nothing);
    }
    let first = tokens.kind(from);
    if !is_sign(first, "(") {
        return Ok(FoundModes::Nothing);
    }
    let found = modes(alloc, tokens, from + 1, to)?;
    Ok(found)
}

/// The mode lists that stand from a place on.
pub(crate) fn mode_lists(
    alloc: Global,
    tokens: &Tokens,
    from: usize,
    to: usize,
) -> Result<FoundLists, AllocError>
    requires ordered { from ≤ to }
    requires within { to ≤ length tokens.now }
    ensures { IfOk result (λ found. IsListed (kinds tokens.now) from to found) }
{
    let mut lists = ModeLists::new(alloc)?;
    let mut end = from;
    'lists: loop {
        let found = mode_list(alloc, tokens, end, to)?;
        match found {
            FoundModes::Found(modes, behind) => {
                lists.push(modes)?;
                end = behind;
            }
            FoundModes::Nothing => return Ok(FoundLists { lists, end }),
        }
    }
}
