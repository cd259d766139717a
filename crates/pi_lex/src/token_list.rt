//! The tokens of a text, as callers see them.

use crate::store::Store;
use std::marker::Model;

/// What a token says. Source: "Tokens" of A User's Guide to Picat for each kind; what differs from it is marked
/// as own.
#[derive(Clone, Copy)]
pub enum TokenKind<'a> {
    /// A variable: `A` to `Z` or `_`, and then ASCII letters, digits, `_` and characters past ASCII that may go on
    /// in an identifier of Unicode (these are own).
    Var(&'a str),
    /// An atom. Unquoted it is `a` to `z`, or a character past ASCII that may begin an identifier of Unicode
    /// (own), goes on as a variable does, and is no reserved word. Quoted it stands in single quotes, and this is
    /// what stands between them, with `\\`, `\'`, `\"`, `\n` and `\t` read as `\`, `'`, `"`, a line feed and a tab.
    /// A token doesn't tell whether it was quoted.
    Atom(&'a str),
    /// A reserved word (this list is own): `if`, `then`, `elseif`, `else`, `end`, `foreach`, `in`, `notin`,
    /// `while`, `do`, `not`, `once`, `div`, `mod` or `rem`.
    Word(&'a str),
    /// An integer from 0 to 2^127 - 1 (this bound is own): decimal digits, or `0x`, `0o` or `0b` and digits of
    /// base 16, 8 or 2; a single `_` may stand between two digits. No letter or `_` follows it.
    Int(i128),
    /// A text in double quotes, with the escapes of a quoted atom.
    Str(&'a str),
    /// A sign (this list is own), the longest that fits.
    Sign(&'a str),
    /// The end point of a part: a `.` that isn't part of `..`, before white space, `%` or the end of the text.
    End,
}

/// The tokens of a text with their lines. A clause sees them as the list of these pairs.
#[derive(Drop)]
pub struct Tokens {
    store: Store,
}

impl Model for Tokens {
    ghost use Rattle.std.specs.Prelude.{List};
    ghost use Rattle.pi_syntax.specs.Tokens.{Located};

    ghost Value = { List Located };

    ghost use Rattle.pi_lex.specs.Kinds.{AreNatural};
    ghost use Rattle.pi_lex.specs.Store.{listed, IsSound};

    ghost view = { λ tokens. listed tokens.store };

    ghost invariant = { λ tokens. IsSound tokens.store × AreNatural (listed tokens.store) };
}

impl Tokens {
    ghost use Rattle.std.specs.Prelude.{◌≡◌, ◌<◌, ◌==◌, length, slice_get, Some};
    ghost use Rattle.pi_lex.specs.Kinds.{token_shown, kinds, lines, IsNatural, AreNatural};
    ghost use Rattle.pi_lex.specs.Store.{listed, IsSound};

    /// The tokens of a store.
    pub(crate) fn of(store: Store) -> Self
        requires sound { IsSound store }
        requires natural { AreNatural (listed store) }
        ensures { result ≡ listed store }
    {
        Tokens { store }
    }

    /// How many tokens there are.
    pub fn len(&self) -> usize
        ensures { result ≡ length self.now }
    {
        self.store.len()
    }

    /// Whether there is no token.
    pub fn is_empty(&self) -> bool
        ensures { result ≡ (length self.now == 0) }
    {
        self.len() == 0
    }

    /// What the token at a place says, where the first place is 0.
    pub fn kind(&self, i: usize) -> TokenKind<'_>
        requires { i < length self.now }
        ensures token { slice_get (kinds self.now) i ≡ Some (token_shown result) }
        ensures natural { IsNatural (token_shown result) }
    {
        self.store.kind(i)
    }

    /// The line on which the token at a place begins, where the first line is 1.
    pub fn line(&self, i: usize) -> u64
        requires { i < length self.now }
        ensures { slice_get (lines self.now) i ≡ Some result }
    {
        self.store.line(i)
    }
}
