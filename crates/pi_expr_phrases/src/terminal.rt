//! The terminals of the grammar.
ghost use Rattle.std.specs.Prelude.{◌≡◌};
ghost use Rattle.pi_syntax.specs.Ranks as ranks;
ghost use Rattle.pi_expr_phrases.specs.Machine as machine;
ghost use Rattle.pi_expr_phrases.specs.Shown.{mark_shown, terminal_shown};

use crate::natural::Natural;
use crate::phrase::Line;

/// A terminal that says no more than its kind.
#[derive(Clone, Copy)]
pub enum Mark {
    Plus,
    Minus,
    Dots,
    Power,
    Complement,
    ConstraintNot,
    OpenParen,
    CloseParen,
    OpenBracket,
    CloseBracket,
    OpenBrace,
    CloseBrace,
    Comma,
    Semicolon,
    Arrow,
    Bar,
    Colon,
    Dot,
    Dollar,
    At,
    If,
    Then,
    ElseIf,
    Else,
    End,
    Foreach,
    While,
    Do,
    /// What stands in no expression.
    Foreign,
}

impl Mark {
    /// A number of its own for each, from 1 on.
    pub(crate) fn number(self) -> u8
        ensures { result ≡ machine.number (mark_shown self) }
    {
        match self {
            Mark::Plus => 1,
            Mark::Minus => 2,
            Mark::Dots => 3,
            Mark::Power => 4,
            Mark::Complement => 5,
            Mark::ConstraintNot => 6,
            Mark::OpenParen => 7,
            Mark::CloseParen => 8,
            Mark::OpenBracket => 9,
            Mark::CloseBracket => 10,
            Mark::OpenBrace => 11,
            Mark::CloseBrace => 12,
            Mark::Comma => 13,
            Mark::Semicolon => 14,
            Mark::Arrow => 15,
            Mark::Bar => 16,
            Mark::Colon => 17,
            Mark::Dot => 18,
            Mark::Dollar => 19,
            Mark::At => 20,
            Mark::If => 21,
            Mark::Then => 22,
            Mark::ElseIf => 23,
            Mark::Else => 24,
            Mark::End => 25,
            Mark::Foreach => 26,
            Mark::While => 27,
            Mark::Do => 28,
            Mark::Foreign => 29,
        }
    }

    /// The highest rank of the phrases that it goes on with, or 0.
    fn reach(self) -> u8
        ensures { result ≡ ranks.reach (mark_shown self) }
    {
        match self {
            Mark::Semicolon => 1,
            Mark::Arrow => 2,
            Mark::Comma => 3,
            Mark::Dots => 12,
            Mark::Plus | Mark::Minus => 17,
            Mark::Power => 20,
            Mark::OpenBracket | Mark::Dot => 21,
            Mark::OpenParen | Mark::At => 22,
            _ => 0,
        }
    }
}

/// A terminal. A name is what stands in the tree.
#[derive(Clone, Copy)]
pub enum Terminal<'a> {
    Variable(&'a str),
    Atom(&'a str),
    Integer(Natural),
    Text(&'a str),
    /// A sign between two operands that groups to the left, save `+` and `-`.
    Joint(Line, &'a str),
    Relation(&'a str),
    /// `not` or `once`.
    GoalSign(&'a str),
    Mark(Mark),
}

impl Terminal<'_> {
    /// The number of its mark, or 0.
    pub(crate) fn number(self) -> u8
        ensures { result ≡ machine.number (terminal_shown self.entry) }
    {
        match self {
            Terminal::Mark(mark) => mark.number(),
            _ => 0,
        }
    }

    /// The highest rank of the phrases that it goes on with, or 0.
    pub(crate) fn reach(self) -> u8
        ensures { result ≡ ranks.reach (terminal_shown self.entry) }
    {
        match self {
            Terminal::Joint(line, _) => line.rank(),
            Terminal::Relation(_) => 11,
            Terminal::Mark(mark) => mark.reach(),
            _ => 0,
        }
    }
}
