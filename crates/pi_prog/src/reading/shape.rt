//! An expression alone, or two with an arrow between them.
ghost use Rattle.std.specs.Prelude.{◌≡◌, ◌≤◌, ◌<◌, Some, None, length, IfOk, IfErr};
ghost use Rattle.pi_lex.specs.Kinds.{kinds, token_shown};
ghost use Rattle.pi_syntax.specs.Crowding.{IsCrowded};
ghost use Rattle.pi_expr.specs.Faults.{stretch};
ghost use Rattle.pi_prog_clauses.specs.Shape as spec;
ghost use Rattle.pi_prog.specs.Pieces.{sides_at, ShowsArrow, IsShape, IsShapeFault};

use pi_expr::{ExpFault, read_uncrowded};
use pi_lex::{TokenKind, Tokens};
use pi_syntax::Exp;
use std::alloc::Global;

/// The place of the first arrow, and whether it is `?=>`.
#[derive(Clone, Copy)]
pub(crate) enum Arrow {
    At(usize, bool),
    Nowhere,
}

/// What the tokens of a clause are.
#[derive(Drop)]
pub(crate) enum ReadShape {
    Bare(Exp),
    /// Left side, whether the arrow is `?=>`, and right side.
    Ruled(Exp, bool, Exp),
}

/// Whether an arrow is `?=>`, where the token is one.
fn arrow_of(token: TokenKind<'_>) -> Option<bool>
    ensures { result ≡ spec.arrow_of (token_shown token.entry) }
{
    match token {
        TokenKind::Sign(sign) => {
            if sign == "=>" {
                Some(false)
            } else if sign == "?=>" {
                Some(true)
            } else {
                None
            }
        }
        TokenKind::Var(_) => None,
        TokenKind::Atom(_) => None,
        TokenKind::Word(_) => None,
        TokenKind::Int(_) => None,
        TokenKind::Str(_) => None,
        TokenKind::End => None,
    }
}

fn first_arrow(tokens: &Tokens, from: usize, to: usize) -> Arrow
    requires ordered { from ≤ to }
    requires within { to ≤ length tokens.now }
    ensures { ShowsArrow (kinds tokens.now) from to result }
{
    for i in from..to {
        let token = tokens.kind(i);
        let arrow = arrow_of(token);
        match arrow {
            Some(back) => return Arrow::At(i, back),
            None => {}
        }
    }
    Arrow::Nowhere
}

/// The shape of a clause's tokens.
pub(crate) fn read_shape(
    alloc: Global,
    tokens: &Tokens,
    from: usize,
    to: usize,
) -> Result<ReadShape, ExpFault>
    requires ordered { from ≤ to }
    requires within { to ≤ length tokens.now }
    requires uncrowded { ¬ IsCrowded (stretch (kinds tokens.now) from to) }
    ensures shape { IfOk result (IsShape (stretch (kinds tokens.now) from to)) }
    ensures fault { IfErr result (IsShapeFault (stretch (kinds tokens.now) from to)) }
{
    match first_arrow(tokens, from, to) {
        Arrow::At(at, back) => ruled(alloc, tokens, from, at, back, to),
        Arrow::Nowhere => bare(alloc, tokens, from, to),
    }
}

/// With no arrow.
fn bare(alloc: Global, tokens: &Tokens, from: usize, to: usize) -> Result<ReadShape, ExpFault>
    requires ordered { from ≤ to }
    requires within { to ≤ length tokens.now }
    requires uncrowded { ¬ IsCrowded (stretch (kinds tokens.now) from to) }
    requires no_arrow { spec.sides (stretch (kinds tokens.now) from to) ≡ None }
    ensures shape { IfOk result (IsShape (stretch (kinds tokens.now) from to)) }
    ensures fault { IfErr result (IsShapeFault (stretch (kinds tokens.now) from to)) }
{
    let exp = read_uncrowded(alloc, tokens, from, to)?;
    Ok(ReadShape::Bare(exp))
}

/// With the first arrow at a place.
fn ruled(
    alloc: Global,
    tokens: &Tokens,
    from: usize,
    at: usize,
    back: bool,
    to: usize,
) -> Result<ReadShape, ExpFault>
    requires left { from ≤ at }
    requires right { at < to }
    requires within { to ≤ length tokens.now }
    requires uncrowded { ¬ IsCrowded (stretch (kinds tokens.now) from to) }
    requires arrow { spec.sides (stretch (kinds tokens.now) from to) ≡ Some (sides_at (kinds tokens.now) from at back to) }
    ensures shape { IfOk result (IsShape (stretch (kinds tokens.now) from to)) }
    ensures fault { IfErr result (IsShapeFault (stretch (kinds tokens.now) from to)) }
{
    match read_uncrowded(alloc, tokens, from, at) {
        Ok(left) => {
            let right = read_uncrowded(alloc, tokens, at + 1, to)?;
            Ok(ReadShape::Ruled(left, back, right))
        }
        // That the right side is no expression tells more than that the left one is too deep.
        Err(ExpFault::TooDeep) => {
            let right = read_uncrowded(alloc, tokens, at + 1, to)?;
            drop(right);
            Err(ExpFault::TooDeep)
        }
        Err(ExpFault::NoExpression) => Err(ExpFault::NoExpression),
        Err(ExpFault::Memory) => Err(ExpFault::Memory),
    }
}
