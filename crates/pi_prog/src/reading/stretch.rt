//! Where parts end.
ghost use Rattle.std.specs.Prelude.{◌≡◌};
ghost use Rattle.pi_lex.specs.Kinds.{token_shown};
ghost use Rattle.pi_prog_clauses.specs.Declaration as declaration;
ghost use Rattle.pi_prog.specs.Pieces as pieces;

use pi_lex::TokenKind;

/// Whether the token is the end point, which ends a part; own.
pub fn is_end(token: TokenKind<'_>) -> bool
    ensures { result ≡ pieces.is_end (token_shown token.entry) }
{
    match token {
        TokenKind::End => true,
        TokenKind::Var(_) => false,
        TokenKind::Atom(_) => false,
        TokenKind::Word(_) => false,
        TokenKind::Int(_) => false,
        TokenKind::Str(_) => false,
        TokenKind::Sign(_) => false,
    }
}

/// Whether the token is this sign.
pub(crate) fn is_sign(token: TokenKind<'_>, spelling: &str) -> bool
    ensures { result ≡ declaration.is_sign spelling.now (token_shown token.entry) }
{
    match token {
        TokenKind::Sign(sign) => sign == spelling,
        TokenKind::Var(_) => false,
        TokenKind::Atom(_) => false,
        TokenKind::Word(_) => false,
        TokenKind::Int(_) => false,
        TokenKind::Str(_) => false,
        TokenKind::End => false,
    }
}
