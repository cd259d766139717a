//! The terminals of a stretch of tokens.
ghost use Rattle.std.specs.Prelude.{◌≡◌, [], ◌∷◌, true, false, MatchOption};
ghost use Rattle.pi_syntax.specs.Ranks as ranks;
ghost use Rattle.pi_expr_phrases.specs.Machine as machine;
ghost use Rattle.pi_expr_phrases.specs.Shown.{mark_shown, terminal_shown, terminals, ShowsAhead};

use crate::signs::terminal;
use crate::terminal::{Mark, Terminal};
use pi_lex::Tokens;

/// The terminals of the tokens from one place up to another, each of which is looked up where it stands. None stands behind
/// the last token.
#[derive(Clone, Copy)]
pub struct Terminals<'a> {
    tokens: &'a Tokens,
    from: usize,
    to: usize,
}

impl<'a> Terminals<'a> {
    ghost use Rattle.std.specs.Prelude.{◌≡◌, ◌==◌, length, map};
    ghost use Rattle.pi_lex.specs.Kinds.{kinds};
    ghost use Rattle.pi_syntax.specs.Terminals as t;
    ghost use Rattle.pi_expr_phrases.specs.Shown.{terminals};
    ghost use Rattle.pi_expr_phrases.specs.Stretch.{stretch};

    /// The terminals of the tokens from one place up to another.
    #[tactic(auto, unfolding(crate::specs::Shown::terminals))]
    pub fn new(tokens: &'a Tokens, from: usize, to: usize) -> Self
        ensures { terminals result ≡ map t.terminal (stretch (kinds tokens.now) from to) }
    {
        Terminals { tokens, from, to }
    }

    /// How many are left.
    pub fn len(self) -> usize
        ensures { result ≡ length (terminals self.entry) }
    {
        let end = self.to.min(self.tokens.len());
        end.saturating_sub(self.from)
    }

    /// Whether none is left.
    pub fn is_empty(self) -> bool
        ensures { result ≡ (length (terminals self.entry) == 0) }
    {
        self.len() == 0
    }
}

/// The first terminal and those behind it, or that there is none.
#[derive(Clone, Copy)]
pub enum Ahead<'a> {
    Next(Terminal<'a>, Terminals<'a>),
    End,
}

/// The first terminal, and those behind it.
pub fn front<'a>(ts: Terminals<'a>) -> Ahead<'a>
    ensures { ShowsAhead result (terminals ts.entry) }
{
    let end = ts.to.min(ts.tokens.len());
    if end <= ts.from {
        return Ahead::End;
    }
    let token = ts.tokens.kind(ts.from);
    let rest = Terminals {
        tokens: ts.tokens,
        from: ts.from + 1,
        to: ts.to,
    };
    Ahead::Next(terminal(token), rest)
}

/// What stands behind the mark, where it comes first.
pub fn behind<'a>(mark: Mark, ts: Terminals<'a>) -> Option<Terminals<'a>>
    ensures { MatchOption result (machine.headed (mark_shown mark) (terminals ts.entry) ≡ false)
        (λ rest. (machine.headed (mark_shown mark) (terminals ts.entry) ≡ true) ×
        (machine.tail (terminals ts.entry) ≡ terminals rest)) }
{
    match front(ts) {
        Ahead::Next(first, rest) => {
            if first.number() == mark.number() {
                Some(rest)
            } else {
                None
            }
        }
        Ahead::End => None,
    }
}

/// Whether the mark comes first.
pub fn starts_with(mark: Mark, ts: Terminals<'_>) -> bool
    ensures { result ≡ machine.headed (mark_shown mark) (terminals ts.entry) }
{
    match front(ts) {
        Ahead::Next(first, _) => first.number() == mark.number(),
        Ahead::End => false,
    }
}

/// The highest rank of the phrases that the first terminal goes on with, or 0.
pub fn reach(ts: Terminals<'_>) -> u8
    ensures { result ≡ ranks.reach_of (terminals ts.entry) }
{
    match front(ts) {
        Ahead::Next(first, _) => first.reach(),
        Ahead::End => 0,
    }
}
