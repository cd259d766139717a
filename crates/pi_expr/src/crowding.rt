//! Tokens that are too many for a reader that nests with them.
ghost use Rattle.std.specs.Prelude.{◌≡◌, ◌≤◌, ◌<◌, ◌+◌, ◌↔◌, true, length, count_by};
ghost use Rattle.pi_lex.specs.Kinds.{kinds, token_shown};
ghost use Rattle.pi_syntax.specs.Crowding as spec;
ghost use Rattle.pi_expr.specs.Crowds.{one_if, is_too_open};
ghost use Rattle.pi_expr.specs.Faults.{stretch};

use pi_lex::{TokenKind, Tokens};

const MOST_OPEN: usize = 1_000;

const MOST_BLOCK_WORDS: usize = 1_000;

/// Whether the tokens from one place up to another are crowded: some front of them has over 1,000 brackets that are open
/// at its end, or over 1,000 of them are block words (own).
pub fn is_crowded(tokens: &Tokens, from: usize, to: usize) -> bool
    requires ordered { from ≤ to }
    requires within { to ≤ length tokens.now }
    ensures { (result ≡ true) ↔ spec.IsCrowded (stretch (kinds tokens.now) from to) }
{
    if opens_too_many(tokens, from, to) {
        return true;
    }
    let words = block_words(tokens, from, to);
    has_many(words)
}

fn has_many(words: usize) -> bool
    ensures { (result ≡ true) ↔ (spec.most_block_words < words) }
{
    words > MOST_BLOCK_WORDS
}

fn opens_too_many(tokens: &Tokens, from: usize, to: usize) -> bool
    requires ordered { from ≤ to }
    requires within { to ≤ length tokens.now }
    ensures { result ≡ is_too_open 0 0 (stretch (kinds tokens.now) from to) }
{
    let mut opened = 0;
    let mut closed = 0;
    for i in from..to {
        let token = tokens.kind(i);
        let opens = is_opening(token);
        let closes = is_closing(token);
        opened = count_if(opened, opens);
        closed = count_if(closed, closes);
        if opened.saturating_sub(closed) > MOST_OPEN {
            return true;
        }
    }
    false
}

fn block_words(tokens: &Tokens, from: usize, to: usize) -> usize
    requires ordered { from ≤ to }
    requires within { to ≤ length tokens.now }
    ensures { result ≡ count_by spec.is_block_word (stretch (kinds tokens.now) from to) }
{
    let mut words = 0;
    for i in from..to {
        let token = tokens.kind(i);
        let is_word = is_block_word(token);
        words = count_if(words, is_word);
    }
    words
}

/// One more, where that holds.
fn count_if(count: usize, holds: bool) -> usize
    requires { count < usize.MAX }
    ensures { result ≡ count + one_if holds }
{
    if holds { count + 1 } else { count }
}

#[tactic(auto, unfolding(pi_syntax::specs::Crowding::is_opening))]
fn is_opening(token: TokenKind<'_>) -> bool
    ensures { result ≡ spec.is_opening (token_shown token.entry) }
{
    match token {
        TokenKind::Sign(sign) => (sign == "(") | (sign == "[") | (sign == "{"),
        TokenKind::Var(_) => false,
        TokenKind::Atom(_) => false,
        TokenKind::Word(_) => false,
        TokenKind::Int(_) => false,
        TokenKind::Str(_) => false,
        TokenKind::End => false,
    }
}

#[tactic(auto, unfolding(pi_syntax::specs::Crowding::is_closing))]
fn is_closing(token: TokenKind<'_>) -> bool
    ensures { result ≡ spec.is_closing (token_shown token.entry) }
{
    match token {
        TokenKind::Sign(sign) => (sign == ")") | (sign == "]") | (sign == "}"),
        TokenKind::Var(_) => false,
        TokenKind::Atom(_) => false,
        TokenKind::Word(_) => false,
        TokenKind::Int(_) => false,
        TokenKind::Str(_) => false,
        TokenKind::End => false,
    }
}

#[tactic(auto, unfolding(pi_syntax::specs::Crowding::is_block_word))]
fn is_block_word(token: TokenKind<'_>) -> bool
    ensures { result ≡ spec.is_block_word (token_shown token.entry) }
{
    match token {
        TokenKind::Word(word) => {
            (word == "if") | (word == "foreach") | (word == "while") | (word == "do")
        }
        TokenKind::Var(_) => false,
        TokenKind::Atom(_) => false,
        TokenKind::Int(_) => false,
        TokenKind::Str(_) => false,
        TokenKind::Sign(_) => false,
        TokenKind::End => false,
    }
}
